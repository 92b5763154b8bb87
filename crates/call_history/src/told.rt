//! What an entry says of the time and of a row, by its op and its reply alone.

ghost use Rattle.std.specs.Prelude.{◌≡◌};
ghost use Rattle.std.specs.Option.{option_map};
ghost use Rattle.channel_values.specs.Rules.{top_turn};
ghost use Rattle.call_history.specs.Rows.{fixed_of};
ghost use Rattle.call_history.specs.History.{time_set, or_before};
ghost use Rattle.call_history.specs.Told.{challenged_turn, told_row};

use crate::call::{Call, Op};
use crate::entry::Entry;
use crate::refusal::Reply;
use crate::states::newest;
use channel_values::{Fixed, State};

/// The turn of the last of these states, or 0.
pub fn top_turn(states: &[State]) -> u64
    ensures { result ≡ top_turn states.now }
{
    match newest(states) {
        None => 0,
        Some(last) => last.turn(),
    }
}

/// The time that an entry sets, if it does.
pub fn time_set(entry: &Entry) -> Option<u64>
    ensures { result ≡ time_set entry.now.op entry.now.reply }
{
    match &entry.op {
        Op::Call(_) => None,
        Op::Time(to) => match entry.reply {
            Reply::No(_) => None,
            _ => Some(*to),
        },
    }
}

/// The time after an entry, from the time before it.
pub fn time_after(before: u64, entry: &Entry) -> u64
    ensures { result ≡ or_before (time_set entry.now.op entry.now.reply) before }
{
    match time_set(entry) {
        Some(now) => now,
        None => before,
    }
}

/// The fixed part of the channel whose row a call may change.
pub fn fixed_of(op: &Op) -> Option<&Fixed>
    ensures { option_map (λ m. m.now) result ≡ fixed_of op.now }
{
    match op {
        Op::Call(call) => match call {
            Call::Challenge(challenge) => Some(&challenge.chain.fixed),
            Call::Checkpoint { chain } | Call::Conclude { chain } => Some(&chain.fixed),
            Call::Respond(respond) => Some(&respond.fixed),
            Call::Refute { fixed, .. } => Some(fixed),
            _ => None,
        },
        Op::Time(_) => None,
    }
}

fn challenged_turn(op: &Op) -> u64
    ensures { result ≡ challenged_turn op.now }
{
    match op {
        Op::Call(Call::Challenge(challenge)) => top_turn(challenge.chain.states.as_slice()),
        _ => 0,
    }
}

/// The recorded turn and the deadline after an accepted call on a row. The time is that of the call.
pub fn told_row(now: u64, entry: &Entry) -> Option<(u64, Option<u64>)>
    ensures { result ≡ told_row now entry.now.op entry.now.reply }
{
    match entry.reply {
        Reply::Until(deadline) => Some((challenged_turn(&entry.op), Some(deadline))),
        Reply::Opened(turn) => Some((turn, None)),
        Reply::Concluded(turn) => Some((turn, Some(now))),
        _ => None,
    }
}
