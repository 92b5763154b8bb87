//! Whether the calls of effects keep the limits of their format, as far as their types don't say it.

ghost use Rattle.std.specs.Prelude.{IsTrue, ◌↔◌};
ghost use Rattle.std.specs.List.{All, AllByRecursion};
ghost use Rattle.call_history.specs.Limits.{IsShort, KeepsCall};
ghost use Rattle.channel_values.specs.Chains.{KeepsMark, KeepsLimits};
ghost use Rattle.node_lines.specs.Texts.{KeepsEffect};

use call_history::Call;
use channel_values::{Chain, MOST_MARKS, MOST_SIGNATURE_BYTES, MOST_STATES, Mark, Signed};
use node_lines::Effect;

fn keeps_mark(mark: &Mark) -> bool
    ensures { IsTrue result ↔ KeepsMark mark.now }
{
    mark.signature.as_slice().len() <= MOST_SIGNATURE_BYTES
}

fn marks_keep(marks: &[Mark]) -> bool
    ensures { IsTrue result ↔ AllByRecursion KeepsMark marks.now }
{
    marks.iter().all(|mark| keeps_mark(mark))
}

pub(crate) fn keeps_chain(chain: &Chain) -> bool
    ensures { IsTrue result ↔ KeepsLimits chain.now }
{
    let marks = chain.marks.as_slice();
    chain.states.as_slice().len() <= MOST_STATES && marks.len() <= MOST_MARKS && marks_keep(marks)
}

fn is_short(next: &Signed) -> bool
    ensures { IsTrue result ↔ IsShort next.now }
{
    next.signature.as_slice().len() <= MOST_SIGNATURE_BYTES
}

fn keeps_call(call: &Call) -> bool
    ensures { IsTrue result ↔ KeepsCall call.now }
{
    match call {
        Call::Challenge(challenge) => {
            keeps_chain(&challenge.chain)
                && challenge.signature.as_slice().len() <= MOST_SIGNATURE_BYTES
        }
        Call::Respond(answer) => is_short(&answer.next),
        Call::Refute { next, .. } => is_short(next),
        Call::Checkpoint { chain } | Call::Conclude { chain } => keeps_chain(chain),
        Call::Deposit(_) | Call::Transfer(_) | Call::Claim(_) => true,
    }
}

fn keeps_effect(effect: &Effect) -> bool
    ensures { IsTrue result ↔ KeepsEffect effect.now }
{
    match effect {
        Effect::Call { call, .. } => keeps_call(call),
        _ => true,
    }
}

/// Whether all do.
pub(crate) fn effects_keep(effects: &[Effect]) -> bool
    ensures { IsTrue result ↔ All KeepsEffect effects.now }
{
    effects.iter().all(|effect| keeps_effect(effect))
}
