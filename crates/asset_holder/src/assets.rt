//! The assets of flows.

ghost use Rattle.std.specs.Prelude.{◌≡◌, IfOk};
ghost use Rattle.asset_holder.specs.Receipts.{assets_of};

use call_history::Flow;
use std::alloc::{AllocError, Global};
use std::collections::BTreeSet;

#[tactic(auto, using(crate::proofs::Fronts::assets_of_more))]
pub(crate) fn assets_of(alloc: Global, flows: &[Flow]) -> Result<BTreeSet<u32>, AllocError>
    ensures { IfOk result (λ assets. assets.keys ≡ assets_of flows.now) }
{
    let mut assets = BTreeSet::new(alloc);
    for flow in flows {
        assets.insert(flow.asset)?;
    }
    Ok(assets)
}
