//! Whether a participant can still be paid anything.

ghost use Rattle.std.specs.Prelude.{◌≡◌, ◌==◌, IfOk, OnOk};
ghost use Rattle.std.specs.List.{list_any};
ghost use Rattle.plan_share.specs.Owed as owing;

use crate::worth::share;
use call_history::{ChannelView, Known, WorldView};
use channel_values::NoMemory;
use funding_plans::Plan;
use history_view::paid_amount;
use std::alloc::Global;

fn is_in(assets: &[u32], asset: u32) -> bool
    ensures { result ≡ list_any (λ other. other == asset) assets.now }
{
    assets.iter().any(|other| *other == asset)
}

fn put_asset(assets: &mut Vec<u32>, asset: u32) -> Result<(), NoMemory>
    ensures { OnOk result (assets.new.items ≡ owing.with_asset asset assets.old.items) }
{
    if !is_in(assets, asset) {
        assets.push(asset)?;
    }
    Ok(())
}

fn put_held(assets: &mut Vec<u32>, held: &[(u32, u64)]) -> Result<(), NoMemory>
    ensures { OnOk result (assets.new.items ≡ owing.with_held held.now assets.old.items) }
{
    match held {
        [] => Ok(()),
        [balance, others @ ..] => {
            put_asset(assets, balance.0)?;
            put_held(assets, others)
        }
    }
}

fn put_channels(assets: &mut Vec<u32>, views: &[ChannelView]) -> Result<(), NoMemory>
    ensures { OnOk result (assets.new.items ≡ owing.with_channels views.now assets.old.items) }
{
    for view in views {
        put_held(assets, view.held.as_slice())?;
    }
    Ok(())
}

fn is_owed_of(
    alloc: Global,
    plan: &Plan,
    view: &WorldView,
    known: &[Known],
    asset: u32,
) -> Result<bool, NoMemory>
    ensures { IfOk result (λ b. b ≡ owing.is_owed_of view.entry.now plan.now known.now asset) }
{
    let share = share(alloc, plan, view, known, asset)?;
    Ok((paid_amount(view, &plan.me, asset) as u128) < share)
}

fn is_owed_among(
    alloc: Global,
    plan: &Plan,
    view: &WorldView,
    known: &[Known],
    assets: &[u32],
) -> Result<bool, NoMemory>
    ensures { IfOk result (λ b. b ≡ list_any (owing.is_owed_of view.entry.now plan.now known.now) assets.now) }
{
    match assets {
        [] => Ok(false),
        [asset, others @ ..] => {
            if is_owed_of(alloc, plan, view, known, *asset)? {
                return Ok(true);
            }
            is_owed_among(alloc, plan, view, known, others)
        }
    }
}

/// Whether the share is more than what the view says was paid, in some asset that was ever deposited.
pub fn is_owed(
    alloc: Global,
    plan: &Plan,
    view: &WorldView,
    known: &[Known],
) -> Result<bool, NoMemory>
    ensures { IfOk result (λ b. b ≡ owing.is_owed_seen view.entry.now plan.now known.now) }
{
    let mut assets = Vec::new(alloc);
    put_channels(&mut assets, view.channels.as_slice())?;
    is_owed_among(alloc, plan, view, known, &assets)
}
