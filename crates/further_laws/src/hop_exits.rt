//! The calls of an exit.

ghost use Rattle.std.specs.Prelude.{◌≤◌, ◌*◌, length, IfOk};
ghost use Rattle.channel_exits.specs.Exits.{Exits};

use call_history::{Call, HeldChain, WorldView};
use channel_exits::{ExitFault, exit_calls};
use funding_plans::Plan;
use std::alloc::Global;

/// The calls of an exit, or the first channel of the plan that has a held chain and isn't final. A virtual ledger
/// passes on what it is paid, to the channels of the plan that it names, before it pays the person.
pub fn hop_exit(
    alloc: Global,
    plan: &Plan,
    view: &WorldView,
    chains: &[HeldChain],
) -> Result<Vec<Call>, ExitFault>
    ensures value { Exits (λ v. v.items) result plan.now view.entry.now chains.now }
    ensures few { IfOk result (λ v. length v.items ≤ 220 * length plan.now.parts) }
{
    exit_calls(alloc, plan, view, chains)
}
