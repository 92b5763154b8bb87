//! What ended plans can get.

ghost use Rattle.std.specs.Prelude.{◌≡◌, ◌↔◌, ◌++◌, true, map, IsTrue, IfOk, OnOk, option_copied};
ghost use Rattle.record_checker.specs.Seen as seen;
ghost use Rattle.record_checker.specs.Seen.{HasSharesBy};
ghost use Rattle.record_checker.specs.Faults.{Lacks};
ghost use Rattle.plan_share.specs.Pages.{or_empty};

use crate::comparing::are_same;
use crate::past::Past;
use crate::plans::{firsts, joined, proposed};
use crate::rests::copied;
use call_history::{ChannelView, ChannelViews, Known, PaidAmounts, WorldView};
use channel_values::{AssetOutcome, Listed, Name, NoMemory, Outcome};
use funding_plans::Plan;
use plan_share::share;
use run_record::Ending;
use std::alloc::Global;

// ---- a view of one asset, and of the channels in which a plan's person is a participant

fn channel_seen(
    alloc: Global,
    past: &Past,
    asset: u32,
    channel: &Name,
) -> Result<ChannelView, NoMemory>
    ensures { IfOk result (λ v. v ≡ seen.channel_seen past.now asset channel.now) }
{
    let rest = copied(past.rest(channel))?;
    let mut held = Vec::new(alloc);
    held.push((asset, past.held(channel, asset)))?;
    Ok(ChannelView {
        channel: *channel,
        turn: 0,
        deadline: past.deadline(channel),
        held: Listed::make(held),
        shown: None,
        settled: None,
        rest,
    })
}

fn channels_seen(
    alloc: Global,
    past: &Past,
    asset: u32,
    names: &[Name],
) -> Result<ChannelViews, NoMemory>
    ensures { IfOk result (λ all. all ≡ map (seen.channel_seen past.now asset) names.now) }
{
    let mut all = ChannelViews::new(alloc);
    for name in names {
        let known = channel_seen(alloc, past, asset, name)?;
        all.push(known)?;
    }
    Ok(all)
}

fn plan_seen(alloc: Global, past: &Past, plan: &Plan, asset: u32) -> Result<WorldView, NoMemory>
    ensures { IfOk result (λ w. w ≡ seen.plan_seen past.now plan.now asset) }
{
    let names = joined(alloc, plan.parts.as_slice())?;
    let channels = channels_seen(alloc, past, asset, &names)?;
    let mut paid = PaidAmounts::new(alloc);
    paid.set(&plan.me, asset, past.paid(&plan.me, asset))?;
    Ok(WorldView {
        now: past.time(),
        count: 0,
        channels,
        paid,
    })
}

// ---- assets that the outcomes name

/// The assets of an outcome, if there is one.
fn assets_of(outcome: Option<&Outcome>) -> &[AssetOutcome]
    ensures { result.now ≡ or_empty (option_copied outcome.entry) }
{
    match outcome {
        None => &[],
        Some(outcome) => outcome.assets(),
    }
}

fn put_assets(named: &mut Vec<u32>, assets: &[AssetOutcome]) -> Result<(), NoMemory>
    ensures { OnOk result (named.new.items ≡ named.old.items ++ seen.assets_in assets.now) }
{
    for o in assets {
        named.push(o.asset)?;
    }
    Ok(())
}

fn put_named(
    alloc: Global,
    past: &Past,
    named: &mut Vec<u32>,
    known: &Known,
) -> Result<(), NoMemory>
    ensures { OnOk result (named.new.items ≡ named.old.items ++ seen.named_by past.now known.now) }
{
    put_assets(named, known.last.outcome().assets())?;
    put_assets(named, assets_of(past.rest(&known.channel)))?;
    let proposal = proposed(alloc, known.last.app_bytes())?;
    put_assets(named, assets_of(proposal.as_ref()))
}

/// The assets that the outcomes name with which channels of these known states can end.
fn named_in(alloc: Global, past: &Past, known: &[Known]) -> Result<Vec<u32>, NoMemory>
    ensures { IfOk result (λ named. named.items ≡ seen.named past.now known.now) }
{
    let mut named = Vec::new(alloc);
    for state in known {
        put_named(alloc, past, &mut named, state)?;
    }
    Ok(named)
}

fn is_named(asset: u32, assets: &[u32]) -> bool
    ensures { result ≡ seen.is_named asset assets.now }
{
    assets.iter().any(|other| *other == asset)
}

// ---- shares

/// The share of an asset, by the known states that count, and by a view.
fn share_by_view(
    alloc: Global,
    past: &Past,
    plan: &Plan,
    known: &[Known],
    asset: u32,
) -> Result<u128, NoMemory>
    requires { seen.are_joined plan.now known.now ≡ true }
    ensures { IfOk result (λ n. n ≡ seen.share_by past.now plan.now known.now asset) }
{
    let view = plan_seen(alloc, past, plan, asset)?;
    share(alloc, plan, &view, known, asset)
}

/// The share of an asset, where the outcomes name these: of another no more than was paid.
#[tactic(auto, using(crate::proofs::Naming::share_unnamed))]
fn share_of(
    alloc: Global,
    past: &Past,
    plan: &Plan,
    known: &[Known],
    named: &[u32],
    asset: u32,
) -> Result<u128, NoMemory>
    requires joined { seen.are_joined plan.now known.now ≡ true }
    requires named { named.now ≡ seen.named past.now known.now }
    ensures { IfOk result (λ n. n ≡ seen.share_by past.now plan.now known.now asset) }
{
    if is_named(asset, named) {
        share_by_view(alloc, past, plan, known, asset)
    } else {
        Ok(past.paid(&plan.me, asset) as u128)
    }
}

/// The shares of assets, by the known states that count.
fn shares_of(
    alloc: Global,
    past: &Past,
    plan: &Plan,
    known: &[Known],
    assets: &[u32],
) -> Result<Vec<(u32, u128)>, NoMemory>
    requires { seen.are_joined plan.now known.now ≡ true }
    ensures { IfOk result (λ all. all.items ≡ map (λ asset.
        (asset, seen.share_by past.now plan.now known.now asset)) assets.now) }
{
    let named = named_in(alloc, past, known)?;
    let mut all = Vec::new(alloc);
    for asset in assets {
        let amount = share_of(alloc, past, plan, known, &named, *asset)?;
        all.push((*asset, amount))?;
    }
    Ok(all)
}

/// Whether an ending's shares of these assets are those of its plan.
fn has_shares(alloc: Global, past: &Past, assets: &[u32], ending: &Ending) -> Result<bool, NoMemory>
    ensures { IfOk result (λ b. IsTrue b ↔ HasSharesBy past.now assets.now ending.now) }
{
    let known = firsts(alloc, &ending.plan, ending.known.as_slice())?;
    let wanted = shares_of(alloc, past, &ending.plan, &known, assets)?;
    Ok(are_same(ending.shares.as_slice(), &wanted))
}

/// The first ending whose shares are others.
pub(crate) fn first_bad_share(
    alloc: Global,
    past: &Past,
    assets: &[u32],
    ends: &[Ending],
) -> Result<Option<usize>, NoMemory>
    ensures { IfOk result (Lacks (HasSharesBy past.now assets.now) ends.now) }
{
    let mut count = 0;
    for ending in ends {
        if !has_shares(alloc, past, assets, ending)? {
            return Ok(Some(count));
        }
        count += 1;
    }
    Ok(None)
}
