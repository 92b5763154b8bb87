//! The chain that an entry shows, by what was shown before.

ghost use Rattle.std.specs.Prelude.{◌≡◌, IfOk};
ghost use Rattle.std.specs.Option.{option_map};
ghost use Rattle.call_history.specs.Marked.{nothing, marked_of};
ghost use Rattle.channel_node.specs.Minds.{shown_by};
ghost use Rattle.node_knowledge.specs.Shown.{answered_or, HasFew, FewUnder};

use call_history::{Call, Op, answered};
use channel_values::{Chain, Fixed, Listed, NoMemory, Signed};
use std::alloc::Global;

/// A chain of no state.
fn no_chain(alloc: Global, fixed: &Fixed) -> Result<Chain, NoMemory>
    ensures { IfOk result (λ chain. marked_of chain ≡ nothing) }
{
    let fixed = fixed.copy()?;
    Ok(Chain {
        fixed,
        states: Listed::make(Vec::new(alloc)),
        marks: Listed::make(Vec::new(alloc)),
    })
}

fn with_answer(
    alloc: Global,
    before: Option<&Chain>,
    fixed: &Fixed,
    next: &Signed,
) -> Result<Chain, NoMemory>
    requires { HasFew (option_map (λ m. m.now) before) }
    ensures { IfOk result (λ chain.
        marked_of chain ≡ answered_or fixed.now next.now (option_map (λ m. m.now) before.entry)) }
{
    match before {
        None => no_chain(alloc, fixed),
        Some(chain) => {
            let chain = chain.copy()?;
            let next = next.copy()?;
            answered(fixed, chain, next)
        }
    }
}

/// The chain that an accepted op shows; a respond shows the newest one before with its answer, and a refute none.
pub(crate) fn shown_by(
    alloc: Global,
    fixed: &Fixed,
    op: &Op,
    before: Option<&Chain>,
) -> Result<Chain, NoMemory>
    requires { FewUnder op.now (option_map (λ m. m.now) before) }
    ensures { IfOk result (λ chain. marked_of chain ≡ shown_by op.now (option_map (λ m. m.now) before.entry)) }
{
    match op {
        Op::Call(Call::Challenge(challenge)) => challenge.chain.copy(),
        Op::Call(Call::Checkpoint { chain }) => chain.copy(),
        Op::Call(Call::Conclude { chain }) => chain.copy(),
        Op::Call(Call::Respond(respond)) => {
            with_answer(alloc, before, &respond.fixed, &respond.next)
        }
        _ => no_chain(alloc, fixed),
    }
}
