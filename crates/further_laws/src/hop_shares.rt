//! What a person can get.

ghost use Rattle.std.specs.Prelude.{◌≡◌, IfOk};
ghost use Rattle.plan_share.specs.Seen.{share_seen};

use call_history::{Known, WorldView};
use channel_values::NoMemory;
use funding_plans::Plan;
use plan_share::share;
use std::alloc::Global;

/// What the plan's person was paid of the asset, and the least that its parts are worth to it. A virtual ledger reaches
/// what it holds and what its joint channel and the end's guarantor afford it.
pub fn hop_share(
    alloc: Global,
    plan: &Plan,
    view: &WorldView,
    known: &[Known],
    asset: u32,
) -> Result<u128, NoMemory>
    ensures { IfOk result (λ n. n ≡ share_seen view.entry.now plan.now known.now asset) }
{
    share(alloc, plan, view, known, asset)
}
