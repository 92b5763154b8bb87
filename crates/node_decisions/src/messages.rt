//! Why a message is refused, and the noting of one that isn't.

ghost use Rattle.std.specs.Prelude.{◌≡◌, None, IfOk};
ghost use Rattle.std.specs.Option.{option_map};
ghost use Rattle.call_history.specs.Reading.{message_of};
ghost use Rattle.call_history.specs.declared.event.Deed.TheVariants as deeds;
ghost use Rattle.channel_store.specs.Storing.{kept_of};
ghost use Rattle.channel_store.specs.Noting.{refusal_of};
ghost use Rattle.channel_node.specs.Minds.{facts_of, did};
ghost use Rattle.channel_node.specs.Refusing as refusing;
ghost use Rattle.stage_tables.specs.Stages.{stages};
ghost use Rattle.node_decisions.specs.Telling as telling;
ghost use Rattle.support_rules.specs.Real.{real};

use crate::live::{has_left, not_open, stage_of};
use call_bytes::read_message;
use call_history::NodeRefusal;
use channel_store::NoteFault;
use channel_values::{ByteFault, Name, NoMemory, Signed, State};
use funding_plans::Facts;
use node_knowledge::Known;
use stage_tables::{accepts, asked_in};

/// The refusal of a state that isn't noted. A check needs no memory.
fn told(fault: NoteFault) -> NodeRefusal
    ensures { result ≡ telling.told fault }
{
    match fault {
        NoteFault::Unknown => NodeRefusal::UnknownChannel,
        NoteFault::NotNext(turn) => NodeRefusal::NotNext(turn),
        NoteFault::BadSignature => NodeRefusal::BadSignature,
        NoteFault::BadStep(_) => NodeRefusal::NotAStep,
        NoteFault::NoMemory => NodeRefusal::NotAStep,
    }
}

/// Why the state isn't noted.
fn not_noted(known: &Known, channel: &Name, signed: &Signed) -> Option<NodeRefusal>
    ensures { result ≡ option_map telling.told (refusal_of real channel.now signed.now known.now.kept) }
{
    match known.store().check(channel, signed) {
        Ok(()) => None,
        Err(fault) => Some(told(fault)),
    }
}

fn not_accepted(facts: &Facts, channel: &Name, state: &State) -> Option<NodeRefusal>
    ensures { result ≡ telling.not_accepted stages facts.now channel.now state.now }
{
    if accepts(facts, channel, state) {
        None
    } else {
        Some(NodeRefusal::NotWanted(stage_of(facts, asked_in(facts, channel))))
    }
}

/// The node left, or the stage of the part that is asked, where it doesn't take the state.
fn not_taken(known: &Known, channel: &Name, state: &State) -> Option<NodeRefusal>
    ensures { result ≡ telling.not_taken stages known.now channel.now state.now }
{
    match has_left(known) {
        None => not_accepted(&known.facts(), channel, state),
        refusal => refusal,
    }
}

fn not_open_now(known: &Known) -> Option<NodeRefusal>
    ensures { result ≡ refusing.not_open stages (facts_of known.now) }
{
    not_open(&known.facts())
}

/// Why a state of a channel is refused.
#[tactic(auto, using(crate::proofs::Told::unknown, crate::proofs::Told::closed))]
fn state_refusal(known: &Known, channel: &Name, signed: &Signed) -> Option<NodeRefusal>
    ensures { result ≡ refusing.state_refusal stages real known.now channel.now signed.now
        (kept_of channel.now known.now.kept) }
{
    let Some(_) = known.store().kept(channel) else {
        return Some(NodeRefusal::UnknownChannel);
    };
    match not_open_now(known) {
        Some(refusal) => Some(refusal),
        None => match not_noted(known, channel, signed) {
            Some(refusal) => Some(refusal),
            None => not_taken(known, channel, &signed.state),
        },
    }
}

/// Why a message is refused, by what its bytes gave.
pub fn message_refusal(
    known: &Known,
    read: &Result<(Name, Signed), ByteFault>,
) -> Option<NodeRefusal>
    ensures { result ≡ refusing.message_refusal stages real known.now read.now }
{
    match read {
        Err(_) => Some(NodeRefusal::BadBytes),
        Ok(message) => state_refusal(known, &message.0, &message.1),
    }
}

/// Notes the state of a message, or says why not.
#[tactic(auto, using(crate::proofs::Told::can_note))]
pub fn handle(known: &mut Known, bytes: &[u8]) -> Result<Option<NodeRefusal>, NoMemory>
    ensures refusal { IfOk result (λ refusal.
        refusal ≡ refusing.message_refusal stages real known.old (message_of bytes.now)) }
    ensures noted { IfOk result (λ refusal. known.new ≡ did real (deeds.Handled bytes.now refusal) None known.old) }
    ensures key { known.new.key ≡ known.old.key }
{
    let read = read_message(known.view().channels.allocator(), bytes);
    if let Err(ByteFault::NoMemory) = read {
        return Err(NoMemory);
    }
    if let Some(refusal) = message_refusal(known, &read) {
        return Ok(Some(refusal));
    }
    match read {
        Err(_) => Ok(Some(NodeRefusal::BadBytes)),
        Ok(message) => {
            let channel = message.0;
            known.note(false, &channel, message.1)?;
            Ok(None)
        }
    }
}
