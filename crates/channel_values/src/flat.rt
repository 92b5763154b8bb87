//! Outcomes read without memory.

ghost use Rattle.std.specs.Prelude.{◌≡◌, ◌≤◌, ◌+◌, [], nat_le, IfOk};
ghost use Rattle.std.specs.List.{list_any};
ghost use Rattle.channel_values.specs.Outcomes.{is_same, pays_same, total};
ghost use Rattle.channel_values.specs.Flat.{shape_of, asset_of, assets_of};
ghost use Rattle.channel_values.specs.Reading.{Tells, dest_at, item_at, many_at, listed_at, allocation_at, guarantee_at, shape_at, asset_at, outcome_at, outcome_of};

use crate::cursor::{ended, place_of, take_byte, take_count, take_name, take_u32, take_u64};
use crate::fault::ByteFault;
use crate::limits::{MOST_ASSETS, MOST_ITEMS};
use crate::value::{Dest, Item, Name};
use arrayvec::ArrayVec;

#[tactic(auto, unfolding(crate::specs::Reading::dest_at))]
fn take_dest(whole: usize, bytes: &[u8]) -> Result<(Dest, &[u8]), ByteFault>
    ensures { Tells (λ x. (x.0, x.1.now)) result (dest_at whole bytes.now) }
{
    let place = place_of(whole, bytes);
    let (tag, rest) = take_byte(whole, bytes)?;
    match tag {
        1 => {
            let (name, rest) = take_name(whole, rest)?;
            Ok((Dest::Person(name), rest))
        }
        2 => {
            let (name, rest) = take_name(whole, rest)?;
            Ok((Dest::Channel(name), rest))
        }
        _ => Err(ByteFault::BadTag(place)),
    }
}

fn is_paid(seen: &[Item], to: &Dest) -> bool
    ensures { result ≡ list_any (λ i. is_same i.to to.now) seen.now }
{
    seen.iter().any(|item| item.to.is(to))
}

fn is_listed(seen: &[Dest], to: &Dest) -> bool
    ensures { result ≡ list_any (λ d. is_same d to.now) seen.now }
{
    seen.iter().any(|dest| dest.is(to))
}

/// An item after those seen, whose amounts add up to the sum so far. The new sum comes with it.
#[tactic(auto, unfolding(crate::specs::Reading::item_at))]
fn take_item<'a>(
    whole: usize,
    seen: &[Item],
    sum: u64,
    bytes: &'a [u8],
) -> Result<(Item, u64, &'a [u8]), ByteFault>
    requires { sum ≡ total seen.now }
    ensures read { Tells (λ x. (x.0, x.2.now)) result (item_at whole seen.now bytes.now) }
    ensures sum { IfOk result (λ x. x.1 ≡ total seen.now + x.0.amount) }
{
    let (to, rest) = take_dest(whole, bytes)?;
    if is_paid(seen, &to) {
        return Err(ByteFault::Doubled(place_of(whole, bytes)));
    }
    let place = place_of(whole, rest);
    let (amount, rest) = take_u64(whole, rest)?;
    match sum.checked_add(amount) {
        None => Err(ByteFault::TotalTooLarge(place)),
        Some(sum) => Ok((Item { to, amount }, sum, rest)),
    }
}

/// A destination after those seen.
#[tactic(auto, unfolding(crate::specs::Reading::listed_at))]
fn take_listed<'a>(
    whole: usize,
    seen: &[Dest],
    bytes: &'a [u8],
) -> Result<(Dest, &'a [u8]), ByteFault>
    ensures { Tells (λ x. (x.0, x.1.now)) result (listed_at whole seen.now bytes.now) }
{
    let (to, rest) = take_dest(whole, bytes)?;
    if is_listed(seen, &to) {
        return Err(ByteFault::Doubled(place_of(whole, bytes)));
    }
    Ok((to, rest))
}

/// A shape that takes no memory.
#[derive(Drop)]
pub(crate) enum FlatShape {
    Allocation(ArrayVec<Item, MOST_ITEMS>),
    Guarantee(Name, ArrayVec<Dest, MOST_ITEMS>),
}

/// The outcome of an asset, which takes no memory.
#[derive(Drop)]
pub(crate) struct FlatAsset {
    pub asset: u32,
    pub shape: FlatShape,
}

impl Default for FlatAsset {
    fn default() -> FlatAsset {
        FlatAsset {
            asset: 0,
            shape: FlatShape::Allocation(ArrayVec::new()),
        }
    }
}

fn take_items(
    whole: usize,
    count: u8,
    bytes: &[u8],
) -> Result<(ArrayVec<Item, MOST_ITEMS>, &[u8]), ByteFault>
    requires { count ≤ 16 }
    ensures { Tells (λ x. (x.0.items, x.1.now)) result (many_at (item_at whole) [] count bytes.now) }
{
    let mut items = ArrayVec::new();
    let mut sum = 0;
    let mut rest = bytes;
    'items: for _ in 0..count {
        let (item, new_sum, after) = take_item(whole, items.as_slice(), sum, rest)?;
        items.push(item);
        sum = new_sum;
        rest = after;
    }
    Ok((items, rest))
}

fn take_dests(
    whole: usize,
    count: u8,
    bytes: &[u8],
) -> Result<(ArrayVec<Dest, MOST_ITEMS>, &[u8]), ByteFault>
    requires { count ≤ 16 }
    ensures { Tells (λ x. (x.0.items, x.1.now)) result (many_at (listed_at whole) [] count bytes.now) }
{
    let mut dests = ArrayVec::new();
    let mut rest = bytes;
    'dests: for _ in 0..count {
        let (to, after) = take_listed(whole, dests.as_slice(), rest)?;
        dests.push(to);
        rest = after;
    }
    Ok((dests, rest))
}

#[tactic(auto, unfolding(crate::specs::Reading::allocation_at))]
fn take_allocation(whole: usize, bytes: &[u8]) -> Result<(FlatShape, &[u8]), ByteFault>
    ensures { Tells (λ x. (shape_of x.0, x.1.now)) result (allocation_at whole bytes.now) }
{
    let (count, rest) = take_count(whole, MOST_ITEMS as u8, bytes)?;
    let (items, rest) = take_items(whole, count, rest)?;
    Ok((FlatShape::Allocation(items), rest))
}

#[tactic(auto, unfolding(crate::specs::Reading::guarantee_at))]
fn take_guarantee(whole: usize, bytes: &[u8]) -> Result<(FlatShape, &[u8]), ByteFault>
    ensures { Tells (λ x. (shape_of x.0, x.1.now)) result (guarantee_at whole bytes.now) }
{
    let (target, rest) = take_name(whole, bytes)?;
    let (count, rest) = take_count(whole, MOST_ITEMS as u8, rest)?;
    let (dests, rest) = take_dests(whole, count, rest)?;
    Ok((FlatShape::Guarantee(target, dests), rest))
}

#[tactic(auto, unfolding(crate::specs::Reading::shape_at))]
fn take_shape(whole: usize, bytes: &[u8]) -> Result<(FlatShape, &[u8]), ByteFault>
    ensures { Tells (λ x. (shape_of x.0, x.1.now)) result (shape_at whole bytes.now) }
{
    let (kind, rest) = take_byte(whole, bytes)?;
    match kind {
        1 => take_allocation(whole, rest),
        2 => take_guarantee(whole, rest),
        _ => Err(ByteFault::BadTag(place_of(whole, bytes))),
    }
}

fn has_at_least(seen: &[FlatAsset], asset: u32) -> bool
    ensures { result ≡ list_any (λ o. nat_le asset o.asset) seen.now }
{
    seen.iter().any(|before| asset <= before.asset)
}

fn is_not_above(seen: &[FlatAsset], asset: u32) -> bool
    ensures { result ≡ list_any (λ o. nat_le asset o.asset) (assets_of seen.now) }
{
    has_at_least(seen, asset)
}

/// The outcome of an asset after those seen.
#[tactic(auto, unfolding(crate::specs::Reading::asset_at))]
fn take_asset<'a>(
    whole: usize,
    seen: &[FlatAsset],
    bytes: &'a [u8],
) -> Result<(FlatAsset, &'a [u8]), ByteFault>
    ensures { Tells (λ x. (asset_of x.0, x.1.now)) result (asset_at whole (assets_of seen.now) bytes.now) }
{
    let (asset, rest) = take_u32(whole, bytes)?;
    if is_not_above(seen, asset) {
        return Err(ByteFault::Unordered(place_of(whole, bytes)));
    }
    let (shape, rest) = take_shape(whole, rest)?;
    Ok((FlatAsset { asset, shape }, rest))
}

fn take_assets(
    whole: usize,
    count: u8,
    bytes: &[u8],
) -> Result<(ArrayVec<FlatAsset, MOST_ASSETS>, &[u8]), ByteFault>
    requires { count ≤ 4 }
    ensures { Tells (λ x. (assets_of x.0.items, x.1.now)) result (many_at (asset_at whole) [] count bytes.now) }
{
    let mut assets = ArrayVec::new();
    let mut rest = bytes;
    'assets: for _ in 0..count {
        let (asset, after) = take_asset(whole, assets.as_slice(), rest)?;
        assets.push(asset);
        rest = after;
    }
    Ok((assets, rest))
}

/// An outcome that takes no memory.
#[tactic(auto, unfolding(crate::specs::Reading::outcome_at))]
pub(crate) fn take_flat(
    whole: usize,
    bytes: &[u8],
) -> Result<(ArrayVec<FlatAsset, MOST_ASSETS>, &[u8]), ByteFault>
    ensures { Tells (λ x. (assets_of x.0.items, x.1.now)) result (outcome_at whole bytes.now) }
{
    let (count, rest) = take_count(whole, MOST_ASSETS as u8, bytes)?;
    take_assets(whole, count, rest)
}

/// The outcome that all of the bytes spell.
#[tactic(auto, unfolding(crate::specs::Reading::all_of))]
pub(crate) fn flat_outcome(bytes: &[u8]) -> Result<ArrayVec<FlatAsset, MOST_ASSETS>, ByteFault>
    ensures { Tells (λ x. assets_of x.items) result (outcome_of bytes.now) }
{
    let whole = bytes.len();
    let (assets, rest) = take_flat(whole, bytes)?;
    ended(whole, assets, rest)
}
