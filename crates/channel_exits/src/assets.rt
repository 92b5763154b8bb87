//! The assets of what channels ended with.

ghost use Rattle.std.specs.Prelude.{◌≡◌, ◌≤◌, ◌+◌, ◌*◌, ◌++◌, length, OnOk, IfOk};
ghost use Rattle.std.specs.Option.{option_copied};
ghost use Rattle.channel_exits.specs.Calls as spelled;
ghost use Rattle.channel_exits.specs.Exits.{ended_in};

use crate::views::ended_in;
use call_history::WorldView;
use channel_values::{AssetOutcome, Name, NoMemory, Outcome};
use funding_plans::Part;
use std::alloc::Global;

/// Appends other assets, with this asset once in its place among them.
fn append_put(assets: &mut Vec<u32>, asset: u32, others: &[u32]) -> Result<(), NoMemory>
    ensures value { OnOk result (assets.new.items ≡ assets.old.items ++ spelled.put asset others.now) }
    ensures few { OnOk result (length assets.new.items ≤ length assets.old.items + (length others.now + 1)) }
{
    match others {
        [] => {
            assets.push(asset)?;
            Ok(())
        }
        [first, rest @ ..] => {
            if asset == *first {
                assets.extend_from_slice(others)?;
                Ok(())
            } else if asset < *first {
                assets.push(asset)?;
                assets.extend_from_slice(others)?;
                Ok(())
            } else {
                assets.push(*first)?;
                append_put(assets, asset, rest)
            }
        }
    }
}

fn put(alloc: Global, asset: u32, others: &[u32]) -> Result<Vec<u32>, NoMemory>
    ensures value { IfOk result (λ v. v.items ≡ spelled.put asset others.now) }
    ensures few { IfOk result (λ v. length v.items ≤ length others.now + 1) }
{
    let mut assets = Vec::new(alloc);
    append_put(&mut assets, asset, others)?;
    Ok(assets)
}

fn put_all(alloc: Global, ended: &[AssetOutcome], others: Vec<u32>) -> Result<Vec<u32>, NoMemory>
    ensures value { IfOk result (λ v. v.items ≡ spelled.put_all ended.now others.items) }
    ensures few { IfOk result (λ v. length v.items ≤ length ended.now + length others.items) }
{
    match ended {
        [] => Ok(others),
        [o, rest @ ..] => {
            let assets = put_all(alloc, rest, others)?;
            put(alloc, o.asset, &assets)
        }
    }
}

fn put_ended(alloc: Global, ended: Option<&Outcome>, others: Vec<u32>) -> Result<Vec<u32>, NoMemory>
    ensures value { IfOk result (λ v. v.items ≡ spelled.put_ended (option_copied ended.entry) others.items) }
    ensures few { IfOk result (λ v. length v.items ≤ 4 + length others.items) }
{
    match ended {
        None => Ok(others),
        Some(ended) => put_all(alloc, ended.assets(), others),
    }
}

/// The assets of what channels ended with, rising: at most four of each.
pub(crate) fn assets_of(
    alloc: Global,
    world: &WorldView,
    channels: &[Name],
) -> Result<Vec<u32>, NoMemory>
    ensures value { IfOk result (λ v. v.items ≡ spelled.assets_of (ended_in world.entry.now) channels.now) }
    ensures few { IfOk result (λ v. length v.items ≤ 4 * length channels.now) }
{
    match channels {
        [] => Ok(Vec::new(alloc)),
        [channel, rest @ ..] => {
            let others = assets_of(alloc, world, rest)?;
            put_ended(alloc, ended_in(world, channel), others)
        }
    }
}

/// The assets of what the channels that pay in a part's exit ended with, rising: at most eight.
pub(crate) fn assets_of_part(
    alloc: Global,
    world: &WorldView,
    part: &Part,
) -> Result<Vec<u32>, NoMemory>
    ensures value { IfOk result (λ v. v.items ≡ spelled.assets_of (ended_in world.entry.now) (spelled.exits part.now)) }
    ensures few { IfOk result (λ v. length v.items ≤ 8) }
{
    match part {
        Part::Root(channel) => assets_of(alloc, world, &[*channel]),
        Part::OnLedger(_, channel) => assets_of(alloc, world, &[*channel]),
        Part::End(v) => assets_of(alloc, world, &[v.channel, v.own_guarantor()]),
        Part::Middle(v) => assets_of(alloc, world, &[v.guarantor_a, v.guarantor_b]),
    }
}
