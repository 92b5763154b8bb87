//! What the person of a node can get.

ghost use Rattle.std.specs.Prelude.{◌≡◌, ◌++◌, IfOk, OnOk};
ghost use Rattle.std.specs.List.{flat_map};
ghost use Rattle.node_guarantees.specs.Gains.{share_known, shares_in, shares_known};

use call_history::ChannelView;
use channel_values::{Listed, NoMemory};
use node_knowledge::Known;
use std::alloc::Global;

/// What it can get of an asset.
pub(crate) fn share_known(alloc: Global, known: &Known, asset: u32) -> Result<u128, NoMemory>
    ensures { IfOk result (λ n. n ≡ share_known known.now asset) }
{
    let facts = known.facts();
    plan_share::share(alloc, facts.plan, facts.view, facts.known, asset)
}

/// Adds what it can get of each asset that a channel holds or held.
fn add_shares(
    alloc: Global,
    all: &mut Vec<(u32, u128)>,
    known: &Known,
    view: &ChannelView,
) -> Result<(), NoMemory>
    ensures { OnOk result (all.new.items ≡ all.old.items ++ shares_in known.now view.now) }
{
    for balance in view.held.as_slice() {
        let amount = share_known(alloc, known, balance.0)?;
        all.push((balance.0, amount))?;
    }
    Ok(())
}

/// What it can get of each asset that these channels hold or held.
#[tactic(auto, using(crate::proofs::Gaining::joined_step))]
fn shares_of(
    alloc: Global,
    known: &Known,
    views: &[ChannelView],
) -> Result<Vec<(u32, u128)>, NoMemory>
    ensures { IfOk result (λ all. all.items ≡ flat_map (shares_in known.now) views.now) }
{
    let mut all = Vec::new(alloc);
    for view in views {
        add_shares(alloc, &mut all, known, view)?;
    }
    Ok(all)
}

/// What it can get of each asset that a channel holds or held, channel after channel.
pub(crate) fn shares_known(alloc: Global, known: &Known) -> Result<Listed<(u32, u128)>, NoMemory>
    ensures { IfOk result (λ all. all ≡ shares_known known.now) }
{
    let all = shares_of(alloc, known, known.view().channels.as_slice())?;
    Ok(Listed::make(all))
}
