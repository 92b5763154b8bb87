//! What the types promise of the values in a history and a journal. A contract sees only the parts of a value, so these
//! functions go over the values.

ghost use Rattle.std.specs.List.{AllByRecursion};
ghost use Rattle.channel_values.specs.Outcomes.{AreBytes, IsName};
ghost use Rattle.channel_values.specs.Parts.{IsFixed, IsState};
ghost use Rattle.call_history.specs.Same.{HasValidParts};
ghost use Rattle.channel_safety.specs.Valid.{IsValidEntry, IsValidDeed, IsValidEvent};

use call_history::{Call, Deed, Entry, Event, Op, parts_are_valid};
use channel_values::{Fixed, Listed, Name, State};

fn bytes_are_valid(bytes: &[u8])
    ensures { AreBytes bytes.now }
{
    let _count = bytes.len();
}

fn name_is_valid(name: &Name)
    ensures { IsName name.now }
{
    let _first = name[0];
}

fn state_is_valid(state: &State)
    ensures { IsState state.now }
{
    let _turn = state.turn();
}

fn fixed_is_valid(fixed: &Fixed)
    ensures { IsFixed fixed.now }
{
    let _nonce = fixed.nonce();
}

fn fixed_parts_are_valid(fixed_parts: &[Fixed])
    ensures { AllByRecursion IsFixed fixed_parts.now }
{
    for fixed in fixed_parts {
        fixed_is_valid(fixed);
    }
}

fn calls_are_valid(calls: &[Call])
    ensures { AllByRecursion HasValidParts calls.now }
{
    for call in calls {
        parts_are_valid(call);
    }
}

fn entry_is_valid(entry: &Entry)
    ensures { IsValidEntry entry.now }
{
    match &entry.op {
        Op::Call(call) => parts_are_valid(call),
        Op::Time(_) => {}
    }
}

/// The fixed parts, states and outcomes of all entries are such as their types promise.
pub fn entries_are_valid(entries: &[Entry])
    ensures { AllByRecursion IsValidEntry entries.now }
{
    for entry in entries {
        entry_is_valid(entry);
    }
}

fn deed_is_valid(deed: &Deed)
    ensures { IsValidDeed deed.now }
{
    match deed {
        Deed::Commanded(_, _) => {}
        Deed::Handled(bytes, _) => bytes_are_valid(bytes.as_slice()),
        Deed::Signed(channel, state, _) => {
            name_is_valid(channel);
            state_is_valid(state);
        }
        Deed::SignedChallenge(channel, state, _, _) => {
            name_is_valid(channel);
            state_is_valid(state);
        }
        Deed::Called(call) => parts_are_valid(call),
        Deed::Watched(_, calls) => calls_are_valid(calls.as_slice()),
    }
}

/// The messages, names, states and calls of all events are such as their types promise.
pub fn events_are_valid(events: &[Event])
    ensures { AllByRecursion IsValidEvent events.now }
{
    for event in events {
        deed_is_valid(&event.deed);
    }
}

/// The fixed parts that each command adds are such as their type promises.
pub fn adds_are_valid(adds: &[Listed<Fixed>])
    ensures { AllByRecursion (AllByRecursion IsFixed) adds.now }
{
    for added in adds {
        fixed_parts_are_valid(added.as_slice());
    }
}
