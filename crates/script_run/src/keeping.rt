//! Whether a record keeps the limits of its format, as far as its types don't say it.

ghost use Rattle.std.specs.Prelude.{IsTrue, ◌↔◌};
ghost use Rattle.std.specs.List.{All, AllByRecursion};
ghost use Rattle.call_history.specs.Limits.{IsShort, KeepsCall};
ghost use Rattle.channel_values.specs.Chains.{KeepsMark, KeepsLimits};
ghost use Rattle.run_record.specs.Limits.{KeepsEntry, KeepsHeldChain, KeepsEnding, KeepsRecord};

use call_history::{Call, Entry, HeldChain, Op};
use channel_values::{Chain, MOST_MARKS, MOST_SIGNATURE_BYTES, MOST_STATES, Mark, Signed};
use run_record::{Ending, MOST_CHAINS, MOST_ENDS, MOST_KNOWN, MOST_PARTS, Record};

/// The largest number of four bytes.
const MOST_COUNTED: usize = 4_294_967_295;

fn keeps_mark(mark: &Mark) -> bool
    ensures { IsTrue result ↔ KeepsMark mark.now }
{
    mark.signature.as_slice().len() <= MOST_SIGNATURE_BYTES
}

fn marks_keep(marks: &[Mark]) -> bool
    ensures { IsTrue result ↔ AllByRecursion KeepsMark marks.now }
{
    marks.iter().all(|mark| keeps_mark(mark))
}

fn keeps_chain(chain: &Chain) -> bool
    ensures { IsTrue result ↔ KeepsLimits chain.now }
{
    let marks = chain.marks.as_slice();
    chain.states.as_slice().len() <= MOST_STATES && marks.len() <= MOST_MARKS && marks_keep(marks)
}

fn is_short(next: &Signed) -> bool
    ensures { IsTrue result ↔ IsShort next.now }
{
    next.signature.as_slice().len() <= MOST_SIGNATURE_BYTES
}

fn keeps_call(call: &Call) -> bool
    ensures { IsTrue result ↔ KeepsCall call.now }
{
    match call {
        Call::Challenge(challenge) => {
            keeps_chain(&challenge.chain)
                && challenge.signature.as_slice().len() <= MOST_SIGNATURE_BYTES
        }
        Call::Respond(answer) => is_short(&answer.next),
        Call::Refute { next, .. } => is_short(next),
        Call::Checkpoint { chain } | Call::Conclude { chain } => keeps_chain(chain),
        Call::Deposit(_) | Call::Transfer(_) | Call::Claim(_) => true,
    }
}

fn keeps_entry(entry: &Entry) -> bool
    ensures { IsTrue result ↔ KeepsEntry entry.now }
{
    match &entry.op {
        Op::Call(call) => keeps_call(call),
        Op::Time(_) => true,
    }
}

fn entries_keep(entries: &[Entry]) -> bool
    ensures { IsTrue result ↔ All KeepsEntry entries.now }
{
    entries.iter().all(|entry| keeps_entry(entry))
}

fn chains_keep(chains: &[HeldChain]) -> bool
    ensures { IsTrue result ↔ All KeepsHeldChain chains.now }
{
    chains.iter().all(|held| keeps_chain(&held.chain))
}

fn keeps_ending(ending: &Ending) -> bool
    ensures { IsTrue result ↔ KeepsEnding ending.now }
{
    let chains = ending.chains.as_slice();
    ending.plan.me == ending.person
        && ending.plan.parts.as_slice().len() <= MOST_PARTS as usize
        && ending.known.as_slice().len() <= MOST_KNOWN as usize
        && chains.len() <= MOST_CHAINS as usize
        && ending.shares.as_slice().len() <= MOST_COUNTED
        && chains_keep(chains)
}

fn endings_keep(ends: &[Ending]) -> bool
    ensures { IsTrue result ↔ All KeepsEnding ends.now }
{
    ends.iter().all(|ending| keeps_ending(ending))
}

/// Whether the record keeps the limits.
pub(crate) fn keeps_record(value: &Record) -> bool
    ensures { IsTrue result ↔ KeepsRecord value.now }
{
    let history = value.history.as_slice();
    let ends = value.ends.as_slice();
    history.len() <= MOST_COUNTED
        && value.sums.as_slice().len() <= MOST_COUNTED
        && ends.len() <= MOST_ENDS as usize
        && entries_keep(history)
        && endings_keep(ends)
}
