//! The strings that are hashed for what a history and journals name.

ghost use Rattle.std.specs.Prelude.{◌≡◌, ◌++◌, ◌∷◌, [], map, flat_map, IfOk, OnOk, Some};
ghost use Rattle.channel_values.specs.Digests.{state_string};
ghost use Rattle.call_history.specs.Reading.{message_of};
ghost use Rattle.channel_safety.specs.Hashed.{of_fixed, of_outcome, of_state, of_states, of_call, of_message, of_entry};
ghost use Rattle.premises.specs.Collision.{of_event, of_journal, distinct_strings};

use crate::journal::Journal;
use call_bytes::read_message;
use call_history::{Call, Deed, Entry, Event, Op};
use channel_values::{
    ByteFault, Chain, Fixed, Listed, Name, NoMemory, Outcome, State, channel_name,
};
use std::alloc::Global;

/// The byte of a kind, and the bytes.
fn tagged(alloc: Global, tag: u8, bytes: &[u8]) -> Result<Listed<u8>, NoMemory>
    ensures { IfOk result (λ s. s ≡ tag ∷ bytes.now) }
{
    let mut string = Vec::new(alloc);
    string.push(tag)?;
    string.extend_from_slice(bytes)?;
    Ok(Listed::make(string))
}

fn state_string(alloc: Global, channel: &Name, body: &[u8]) -> Result<Listed<u8>, NoMemory>
    ensures { IfOk result (λ s. s ≡ state_string channel.now body.now) }
{
    let mut string = tagged(alloc, 3, channel)?.into_vec();
    string.extend_from_slice(body)?;
    Ok(Listed::make(string))
}

fn add_outcome(strings: &mut Vec<Listed<u8>>, outcome: &Outcome) -> Result<(), NoMemory>
    ensures { OnOk result (strings.new.items ≡ strings.old.items ++ of_outcome outcome.now ∷ []) }
{
    let alloc = *strings.allocator();
    let string = tagged(alloc, 4, outcome.bytes())?;
    strings.push(string)?;
    Ok(())
}

#[tactic(auto, using(crate::proofs::Adding::map_step, std::proofs::lemmas::List::append_assoc))]
fn add_fixed(strings: &mut Vec<Listed<u8>>, fixed: &Fixed) -> Result<(), NoMemory>
    ensures { OnOk result (strings.new.items ≡ strings.old.items ++ of_fixed fixed.now) }
{
    let alloc = *strings.allocator();
    let string = tagged(alloc, 1, fixed.bytes())?;
    strings.push(string)?;
    let keys = fixed.keys();
    for key in keys {
        let string = tagged(alloc, 2, key)?;
        strings.push(string)?;
    }
    Ok(())
}

#[tactic(auto, using(std::proofs::lemmas::List::append_assoc))]
fn add_state(strings: &mut Vec<Listed<u8>>, channel: &Name, state: &State) -> Result<(), NoMemory>
    ensures { OnOk result (strings.new.items ≡ strings.old.items ++ of_state channel.now state.now) }
{
    let alloc = *strings.allocator();
    let string = state_string(alloc, channel, state.bytes())?;
    strings.push(string)?;
    add_outcome(strings, state.outcome())
}

#[tactic(auto, using(crate::proofs::Adding::joined_step))]
fn add_states(
    strings: &mut Vec<Listed<u8>>,
    channel: &Name,
    states: &[State],
) -> Result<(), NoMemory>
    ensures { OnOk result (strings.new.items ≡ strings.old.items ++ flat_map (of_state channel.now) states.now) }
{
    for state in states {
        add_state(strings, channel, state)?;
    }
    Ok(())
}

#[tactic(auto, using(std::proofs::lemmas::List::append_assoc), unfolding(channel_values::specs::Digests::name_of_channel))]
fn add_chain(strings: &mut Vec<Listed<u8>>, chain: &Chain) -> Result<(), NoMemory>
    ensures { OnOk result (strings.new.items ≡ strings.old.items ++ of_states (Some chain.now.fixed) chain.now.states) }
{
    let channel = channel_name(chain.fixed.bytes());
    add_fixed(strings, &chain.fixed)?;
    add_states(strings, &channel, chain.states.as_slice())
}

#[tactic(auto, using(std::proofs::lemmas::List::append_assoc, crate::proofs::Adding::nothing_more))]
fn add_next(strings: &mut Vec<Listed<u8>>, fixed: &Fixed, next: &State) -> Result<(), NoMemory>
    ensures { OnOk result (strings.new.items ≡ strings.old.items ++ of_states (Some fixed.now) (next.now ∷ [])) }
{
    let channel = channel_name(fixed.bytes());
    add_fixed(strings, fixed)?;
    add_state(strings, &channel, next)
}

#[tactic(auto, using(std::proofs::lemmas::List::append_assoc, crate::proofs::Adding::nothing_more))]
fn add_answer(
    strings: &mut Vec<Listed<u8>>,
    fixed: &Fixed,
    from: &State,
    next: &State,
) -> Result<(), NoMemory>
    ensures { OnOk result (strings.new.items ≡ strings.old.items
        ++ of_states (Some fixed.now) (from.now ∷ next.now ∷ [])) }
{
    let channel = channel_name(fixed.bytes());
    add_fixed(strings, fixed)?;
    add_state(strings, &channel, from)?;
    add_state(strings, &channel, next)
}

#[tactic(auto, using(std::proofs::lemmas::List::append_assoc))]
fn add_outcomes(
    strings: &mut Vec<Listed<u8>>,
    first: &Outcome,
    second: &Outcome,
) -> Result<(), NoMemory>
    ensures { OnOk result (strings.new.items ≡ strings.old.items ++ of_outcome first.now ∷ of_outcome second.now ∷ []) }
{
    add_outcome(strings, first)?;
    add_outcome(strings, second)
}

#[tactic(auto, using(crate::proofs::Adding::nothing_more))]
fn add_call(strings: &mut Vec<Listed<u8>>, call: &Call) -> Result<(), NoMemory>
    ensures { OnOk result (strings.new.items ≡ strings.old.items ++ of_call call.now) }
{
    match call {
        Call::Challenge(challenge) => add_chain(strings, &challenge.chain),
        Call::Checkpoint { chain } => add_chain(strings, chain),
        Call::Conclude { chain } => add_chain(strings, chain),
        Call::Respond(answer) => {
            add_answer(strings, &answer.fixed, &answer.from, &answer.next.state)
        }
        Call::Refute { fixed, next } => add_next(strings, fixed, &next.state),
        Call::Transfer(transfer) => add_outcome(strings, &transfer.outcome),
        Call::Claim(claim) => {
            add_outcomes(strings, &claim.guarantor_outcome, &claim.target_outcome)
        }
        Call::Deposit(_) => Ok(()),
    }
}

#[tactic(auto, using(crate::proofs::Adding::joined_step))]
fn add_calls(strings: &mut Vec<Listed<u8>>, calls: &[Call]) -> Result<(), NoMemory>
    ensures { OnOk result (strings.new.items ≡ strings.old.items ++ flat_map of_call calls.now) }
{
    for call in calls {
        add_call(strings, call)?;
    }
    Ok(())
}

#[tactic(auto, using(crate::proofs::Adding::nothing_more))]
fn add_entry(strings: &mut Vec<Listed<u8>>, entry: &Entry) -> Result<(), NoMemory>
    ensures { OnOk result (strings.new.items ≡ strings.old.items ++ of_entry entry.now) }
{
    match &entry.op {
        Op::Call(call) => add_call(strings, call),
        Op::Time(_) => Ok(()),
    }
}

#[tactic(auto, using(crate::proofs::Adding::joined_step))]
fn add_entries(strings: &mut Vec<Listed<u8>>, history: &[Entry]) -> Result<(), NoMemory>
    ensures { OnOk result (strings.new.items ≡ strings.old.items ++ flat_map of_entry history.now) }
{
    for entry in history {
        add_entry(strings, entry)?;
    }
    Ok(())
}

#[tactic(auto, using(crate::proofs::Adding::nothing_more))]
fn add_message(strings: &mut Vec<Listed<u8>>, bytes: &[u8]) -> Result<(), NoMemory>
    ensures { OnOk result (strings.new.items ≡ strings.old.items ++ of_message (message_of bytes.now)) }
{
    let alloc = *strings.allocator();
    match read_message(alloc, bytes) {
        Ok(message) => {
            let channel = message.0;
            add_state(strings, &channel, &message.1.state)
        }
        Err(ByteFault::NoMemory) => Err(NoMemory),
        Err(_) => Ok(()),
    }
}

#[tactic(auto, using(crate::proofs::Adding::nothing_more))]
fn add_event(strings: &mut Vec<Listed<u8>>, event: &Event) -> Result<(), NoMemory>
    ensures { OnOk result (strings.new.items ≡ strings.old.items ++ of_event event.now) }
{
    match &event.deed {
        Deed::Commanded(_, _) => Ok(()),
        Deed::Handled(bytes, _) => add_message(strings, bytes.as_slice()),
        Deed::Signed(channel, state, _) => add_state(strings, channel, state),
        Deed::SignedChallenge(channel, state, _, _) => add_state(strings, channel, state),
        Deed::Called(call) => add_call(strings, call),
        Deed::Watched(_, calls) => add_calls(strings, calls.as_slice()),
    }
}

#[tactic(auto, using(crate::proofs::Adding::joined_step))]
fn add_events(strings: &mut Vec<Listed<u8>>, events: &[Event]) -> Result<(), NoMemory>
    ensures { OnOk result (strings.new.items ≡ strings.old.items ++ flat_map of_event events.now) }
{
    for event in events {
        add_event(strings, event)?;
    }
    Ok(())
}

#[tactic(auto, using(std::proofs::lemmas::List::append_assoc))]
fn add_journal(strings: &mut Vec<Listed<u8>>, journal: &Journal) -> Result<(), NoMemory>
    ensures { OnOk result (strings.new.items ≡ strings.old.items ++ of_journal journal.now) }
{
    let alloc = *strings.allocator();
    let string = tagged(alloc, 2, &journal.key)?;
    strings.push(string)?;
    add_events(strings, journal.events.as_slice())
}

#[tactic(auto, using(crate::proofs::Adding::joined_step))]
fn add_journals(strings: &mut Vec<Listed<u8>>, journals: &[Journal]) -> Result<(), NoMemory>
    ensures { OnOk result (strings.new.items ≡ strings.old.items ++ flat_map of_journal journals.now) }
{
    for journal in journals {
        add_journal(strings, journal)?;
    }
    Ok(())
}

/// The strings that are hashed for what the history and the journals name.
pub(crate) fn hashed_strings(
    alloc: Global,
    history: &[Entry],
    journals: &[Journal],
) -> Result<Vec<Listed<u8>>, NoMemory>
    ensures { IfOk result (λ v. v.items ≡ distinct_strings history.now journals.now) }
{
    let mut strings = Vec::new(alloc);
    add_entries(&mut strings, history)?;
    add_journals(&mut strings, journals)?;
    Ok(strings)
}
