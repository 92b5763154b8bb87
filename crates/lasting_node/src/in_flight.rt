//! Calls that a node gave and that nobody entered yet.

ghost use Rattle.std.specs.Prelude.{◌≡◌, ◌≤◌, ◌<◌, ◌+◌, ◌^◌, ◌++◌, length, IfOk, OnOk};
ghost use Rattle.std.specs.List.{list_any};
ghost use Rattle.lasting_node.specs.InFlight.{numbered, is_in_flight, not_in_flight, not_entered, has_number, not_dropped};

use call_bytes::{is_op, same_call};
use call_history::{Call, Op};
use channel_values::{Listed, NoMemory};
use node_lines::CallNumber;
use std::alloc::Global;

/// A call that the node gave, and of which neither an entry nor word that it was dropped has come.
#[derive(Drop)]
pub struct InFlight {
    /// The number of the event that gave it.
    pub event: u32,
    /// Its place among the calls of that event.
    pub place: u32,
    pub call: Call,
}

impl InFlight {
    fn copy(&self) -> Result<InFlight, NoMemory>
        ensures { IfOk result (λ w. w ≡ self.now) }
    {
        let call = self.call.copy()?;
        Ok(InFlight {
            event: self.event,
            place: self.place,
            call,
        })
    }
}

fn has_number(number: CallNumber, waiting: &InFlight) -> bool
    ensures { result ≡ has_number number waiting.now }
{
    waiting.event == number.event && waiting.place == number.place
}

/// Whether an equal call is in flight.
fn is_in_flight(waiting: &[InFlight], call: &Call) -> bool
    ensures { result ≡ is_in_flight waiting.now call.now }
{
    waiting.iter().any(|w| same_call(&w.call, call))
}

/// Whether the call of this number is in flight.
pub(crate) fn is_waiting(waiting: &[InFlight], number: CallNumber) -> bool
    ensures { result ≡ list_any (has_number number) waiting.now }
{
    waiting.iter().any(|w| has_number(number, w))
}

/// Those of the calls that aren't in flight yet.
pub(crate) fn not_in_flight(
    alloc: Global,
    waiting: &[InFlight],
    calls: &[Call],
) -> Result<Vec<Call>, NoMemory>
    ensures value { IfOk result (λ more. more.items ≡ not_in_flight waiting.now calls.now) }
    ensures few { IfOk result (λ more. length more.items ≤ length calls.now) }
{
    let mut more = Vec::new(alloc);
    for call in calls {
        if !is_in_flight(waiting, call) {
            let copy = call.copy()?;
            more.push(copy)?;
        }
    }
    Ok(more)
}

/// Those that are still in flight after an entry with this op.
pub(crate) fn not_entered(waiting: &Listed<InFlight>, op: &Op) -> Result<Listed<InFlight>, NoMemory>
    ensures { IfOk result (λ left. left ≡ not_entered op.now waiting.now) }
{
    let mut left = Vec::new(waiting.allocator());
    for w in waiting.as_slice() {
        if !is_op(&w.call, op) {
            let copy = w.copy()?;
            left.push(copy)?;
        }
    }
    Ok(Listed::make(left))
}

/// Those that are still in flight where this one was dropped.
pub(crate) fn not_dropped(
    waiting: &Listed<InFlight>,
    number: CallNumber,
) -> Result<Listed<InFlight>, NoMemory>
    ensures { IfOk result (λ left. left ≡ not_dropped number waiting.now) }
{
    let mut left = Vec::new(waiting.allocator());
    for w in waiting.as_slice() {
        if !has_number(number, w) {
            let copy = w.copy()?;
            left.push(copy)?;
        }
    }
    Ok(Listed::make(left))
}

/// Adds these calls of an event, with the first at this place.
#[tactic(auto, using(crate::proofs::Steps::numbered_step))]
pub(crate) fn add_numbered(
    waiting: &mut Listed<InFlight>,
    event: u32,
    place: u32,
    calls: &[Call],
) -> Result<(), NoMemory>
    requires { place + length calls.now < 2 ^ 32 }
    ensures { OnOk result (waiting.new ≡ waiting.old ++ numbered event place calls.now) }
{
    let mut next = place;
    for call in calls {
        let copy = call.copy()?;
        waiting.push(InFlight {
            event,
            place: next,
            call: copy,
        })?;
        next += 1;
    }
    Ok(())
}
