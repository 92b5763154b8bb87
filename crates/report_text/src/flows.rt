//! The flows of a history.

ghost use Rattle.std.specs.Prelude.{◌≡◌, ◌++◌, IfOk, OnOk};
ghost use Rattle.call_history.specs.History.{flow_of, flows_of};
ghost use Rattle.asset_holder.specs.Receipts.{assets_of};

use asset_holder::Balances;
use call_history::{Entry, Flow, flow_of};
use channel_values::NoMemory;
use std::alloc::{AllocError, Global};

/// Adds the flow of an accepted call.
fn add_flow(flows: &mut Vec<Flow>, entry: &Entry) -> Result<(), AllocError>
    ensures { OnOk result (flows.new.items ≡ flows.old.items ++ flow_of entry.now.op entry.now.reply) }
{
    match flow_of(&entry.op, &entry.reply) {
        Some(flow) => flows.push(flow)?,
        None => {}
    }
    Ok(())
}

/// The flows of a history, in the order of time.
#[tactic(auto, using(crate::proofs::Texts::flows_of_more))]
pub(crate) fn flows_of(alloc: Global, history: &[Entry]) -> Result<Vec<Flow>, AllocError>
    ensures { IfOk result (λ flows. flows.items ≡ flows_of history.now) }
{
    let mut flows = Vec::new(alloc);
    for entry in history {
        add_flow(&mut flows, entry)?;
    }
    Ok(flows)
}

/// The assets of a history, rising.
pub fn assets_of(alloc: Global, history: &[Entry]) -> Result<Vec<u32>, NoMemory>
    ensures { IfOk result (λ assets. assets.items ≡ assets_of (flows_of history.now)) }
{
    let flows = flows_of(alloc, history)?;
    let balances = Balances::of(alloc, flows)?;
    let assets = balances.listed_assets(alloc);
    drop(balances);
    assets
}
