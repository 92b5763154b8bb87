//! Whether a participant's signatures were forged.

ghost use Rattle.std.specs.Prelude.{◌≡◌, ℕ, ◌<◌, ◌≤◌, ◌^◌, IfOk, List, [], ◌∷◌, map, length};
ghost use Rattle.std.specs.List.{slice_get, list_all};
ghost use Rattle.channel_values.specs.Rules.{top_digest};
ghost use Rattle.channel_values.specs.Messages.{message_of_challenge};
ghost use Rattle.channel_safety.specs.Strings.{string_of, with_mark, signed_marks};
ghost use Rattle.support_rules.specs.Real.{real};
ghost use Rattle.premises.specs.Own as strings;
ghost use Rattle.premises.specs.Forgery.{is_own};
ghost use Rattle.premises.specs.Strings.{own_of, told, told_by, op_passes, message_passes, entries_pass, messages_pass};

use call_bytes::read_message;
use call_history::{Call, ChallengeCall, Deed, Entry, Event, Op, RespondCall, newest};
use channel_values::{
    ByteFault, Chain, Fixed, Key, Listed, Mark, Name, NoMemory, Signed, State, challenge_message,
    channel_name, state_digest, state_message,
};
use lms_signatures::verifies;
use std::alloc::Global;

/// The string that an event signed, if it did, and how many entries it had seen.
#[derive(Drop)]
pub(crate) struct Own {
    pub(crate) seen: u32,
    pub(crate) message: Option<Listed<u8>>,
}

// ---- what a participant signed

fn string_of(alloc: Global, deed: &Deed) -> Result<Option<Listed<u8>>, NoMemory>
    ensures { IfOk result (λ o. o ≡ string_of real deed.now) }
{
    match deed {
        Deed::Signed(channel, state, _) => {
            let message = state_message(&state_digest(channel, state.bytes()));
            let copy = Vec::from_slice(alloc, &message)?;
            Ok(Some(Listed::make(copy)))
        }
        Deed::SignedChallenge(channel, state, who, _) => {
            let message = challenge_message(&state_digest(channel, state.bytes()), *who);
            let copy = Vec::from_slice(alloc, &message)?;
            Ok(Some(Listed::make(copy)))
        }
        _ => Ok(None),
    }
}

fn own_of(alloc: Global, event: &Event) -> Result<Own, NoMemory>
    ensures { IfOk result (λ o. o ≡ own_of real event.now) }
{
    let message = string_of(alloc, &event.deed)?;
    Ok(Own {
        seen: event.seen,
        message,
    })
}

pub(crate) fn own_strings(alloc: Global, journal: &[Event]) -> Result<Vec<Own>, NoMemory>
    ensures { IfOk result (λ v. v.items ≡ map (own_of real) journal.now) }
{
    let mut strings = Vec::new(alloc);
    for event in journal {
        let own = own_of(alloc, event)?;
        strings.push(own)?;
    }
    Ok(strings)
}

fn is_string(own: &Own, message: &[u8]) -> bool
    ensures { result ≡ strings.is_string own.now.message message.now }
{
    match &own.message {
        None => false,
        Some(own) => own.as_slice() == message,
    }
}

fn told(own: &[Own], message: &[u8]) -> bool
    ensures { result ≡ told own.now message.now }
{
    own.iter().any(|o| is_string(o, message))
}

fn told_by(own: &[Own], seen: usize, message: &[u8]) -> bool
    ensures { result ≡ told_by own.now seen message.now }
{
    own.iter()
        .any(|o| o.seen as usize <= seen && is_string(o, message))
}

// ---- the strings of an op

/// Whether the signature isn't one of the key, or the string was signed by then.
fn is_own_by(key: &Key, own: &[Own], seen: usize, message: &[u8], signature: &[u8]) -> bool
    ensures { result
        ≡ is_own real key.now (told_by own.now seen) (record { message = message.now; signature = signature.now }) }
{
    told_by(own, seen, message) || !verifies(key, message, signature)
}

fn state_is_own(
    key: &Key,
    own: &[Own],
    seen: usize,
    channel: &Name,
    state: &State,
    signature: &[u8],
) -> bool
    ensures { result
        ≡ is_own real key.now (told_by own.now seen)
        (strings.on_state real channel.now (record { state = state.now; signature = signature.now })) }
{
    let message = state_message(&state_digest(channel, state.bytes()));
    is_own_by(key, own, seen, &message, signature)
}

fn mark_is_own(
    key: &Key,
    own: &[Own],
    seen: usize,
    channel: &Name,
    states: &[State],
    mark: &Mark,
) -> bool
    ensures { result
        ≡ op_passes real key.now own.now seen
        (map (strings.on_state real channel.now) (with_mark mark.now (slice_get states.now mark.now.place) [])) }
{
    let Some(state) = states.get(mark.place as usize) else {
        return true;
    };
    state_is_own(key, own, seen, channel, state, mark.signature.as_slice())
}

#[tactic(auto, using(crate::proofs::Passing::marks_left))]
fn marks_are_own(
    key: &Key,
    own: &[Own],
    seen: usize,
    channel: &Name,
    states: &[State],
    marks: &[Mark],
) -> bool
    ensures { result
        ≡ op_passes real key.now own.now seen
        (map (strings.on_state real channel.now) (signed_marks states.now marks.now)) }
{
    for mark in marks {
        if !mark_is_own(key, own, seen, channel, states, mark) {
            return false;
        }
    }
    true
}

fn chain_is_own(key: &Key, own: &[Own], seen: usize, chain: &Chain) -> bool
    ensures { result
        ≡ op_passes real key.now own.now seen
        (map (strings.on_state real (real.named chain.now.fixed)) (signed_marks chain.now.states chain.now.marks)) }
{
    let channel = channel_name(chain.fixed.bytes());
    marks_are_own(
        key,
        own,
        seen,
        &channel,
        chain.states.as_slice(),
        chain.marks.as_slice(),
    )
}

fn signed_is_own(key: &Key, own: &[Own], seen: usize, fixed: &Fixed, next: &Signed) -> bool
    ensures { result
        ≡ op_passes real key.now own.now seen
        (map (strings.on_state real (real.named fixed.now)) (next.now ∷ [])) }
{
    let channel = channel_name(fixed.bytes());
    state_is_own(
        key,
        own,
        seen,
        &channel,
        &next.state,
        next.signature.as_slice(),
    )
}

/// The challenger's own signature, on the last of the states; where there is none, on no digest.
#[tactic(auto, unfolding(channel_values::specs::Messages::message_of_challenge))]
fn challenge_is_own(key: &Key, own: &[Own], seen: usize, challenge: &ChallengeCall) -> bool
    ensures { result
        ≡ is_own real key.now (told_by own.now seen)
        (record {
          message = message_of_challenge
              (top_digest real challenge.now.chain.fixed challenge.now.chain.states) challenge.now.challenger;
          signature = challenge.now.signature;
        }) }
{
    let chain = &challenge.chain;
    let who = challenge.challenger;
    let signature = challenge.signature.as_slice();
    match newest(chain.states.as_slice()) {
        None => is_own_by(key, own, seen, &[6, who], signature),
        Some(state) => {
            let channel = channel_name(chain.fixed.bytes());
            let message = challenge_message(&state_digest(&channel, state.bytes()), who);
            is_own_by(key, own, seen, &message, signature)
        }
    }
}

fn op_is_own(key: &Key, own: &[Own], seen: usize, op: &Op) -> bool
    ensures { result ≡ op_passes real key.now own.now seen (strings.in_op real op.now) }
{
    match op {
        Op::Call(Call::Challenge(challenge)) => {
            challenge_is_own(key, own, seen, challenge)
                && chain_is_own(key, own, seen, &challenge.chain)
        }
        Op::Call(Call::Checkpoint { chain }) | Op::Call(Call::Conclude { chain }) => {
            chain_is_own(key, own, seen, chain)
        }
        Op::Call(Call::Respond(RespondCall { fixed, next, .. }))
        | Op::Call(Call::Refute { fixed, next }) => signed_is_own(key, own, seen, fixed, next),
        _ => true,
    }
}

/// Whether what verifies in each entry was signed by an event that had seen fewer.
#[tactic(auto, using(crate::proofs::Passing::entries_left))]
pub(crate) fn entries_are_own(key: &Key, own: &[Own], history: &[Entry]) -> bool
    ensures { result ≡ entries_pass real key.now own.now 0 history.now }
{
    for (seen, entry) in history.iter().enumerate() {
        if !op_is_own(key, own, seen, &entry.op) {
            return false;
        }
    }
    true
}

// ---- the strings of messages

fn message_is_own(key: &Key, own: &[Own], channel: &Name, signed: &Signed) -> bool
    ensures { result ≡ message_passes real key.now own.now (strings.on_state real channel.now signed.now ∷ []) }
{
    let message = state_message(&state_digest(channel, signed.state.bytes()));
    told(own, &message) || !verifies(key, &message, signed.signature.as_slice())
}

fn deed_is_own(alloc: Global, key: &Key, own: &[Own], deed: &Deed) -> Result<bool, NoMemory>
    ensures { IfOk result (λ b. b ≡ message_passes real key.now own.now (strings.in_deed real deed.now)) }
{
    match deed {
        Deed::Handled(bytes, _) => match read_message(alloc, bytes.as_slice()) {
            Ok(message) => {
                let channel = message.0;
                Ok(message_is_own(key, own, &channel, &message.1))
            }
            Err(ByteFault::NoMemory) => Err(NoMemory),
            Err(_) => Ok(true),
        },
        _ => Ok(true),
    }
}

/// Whether what verifies in each message was signed by an earlier event.
#[tactic(auto, using(crate::proofs::Passing::messages_left))]
pub(crate) fn messages_are_own(
    alloc: Global,
    key: &Key,
    own: &[Own],
    journal: &[Event],
) -> Result<bool, NoMemory>
    requires { length own.now ≡ length journal.now }
    ensures { IfOk result (λ b. b ≡ messages_pass real key.now own.now 0 journal.now) }
{
    for (place, event) in journal.iter().enumerate() {
        if !deed_is_own(alloc, key, &own[..place], &event.deed)? {
            return Ok(false);
        }
    }
    Ok(true)
}
