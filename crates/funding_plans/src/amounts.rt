//! What an outcome has for a destination.

ghost use Rattle.std.specs.Prelude.{◌≡◌, ◌≤◌, ◌<◌, ◌^◌, length, option_map};
ghost use Rattle.channel_values.specs.Outcomes.{total};
ghost use Rattle.channel_values.specs.Amounts as amounts;
ghost use Rattle.funding_plans.specs.Shapes as shapes;
ghost use Rattle.funding_plans.specs.Outcomes.{amounts_in};

use call_history::shape_in;
use channel_values::{Dest, Item, Name, Outcome, Shape};

/// The amount of a destination's item, or 0.
pub fn amt(items: &[Item], to: &Dest) -> u64
    ensures { result ≡ amounts.amt items.now to.now }
{
    match items {
        [] => 0,
        [item, others @ ..] => {
            if item.to.is(to) {
                item.amount
            } else {
                amt(others, to)
            }
        }
    }
}

/// Whether a destination has an item.
pub fn has(items: &[Item], to: &Dest) -> bool
    ensures { result ≡ amounts.has items.now to.now }
{
    match items {
        [] => false,
        [item, others @ ..] => item.to.is(to) || has(others, to),
    }
}

fn items_of<'a>(shape: Option<&'a Shape>) -> &'a [Item]
    ensures { result.now ≡ shapes.items_of (option_map (λ s. s.now) shape.entry) }
{
    match shape {
        Some(Shape::Allocation(items)) => items.as_slice(),
        _ => &[],
    }
}

fn list_of<'a>(shape: Option<&'a Shape>) -> &'a [Dest]
    ensures { result.now ≡ shapes.list_of (option_map (λ s. s.now) shape.entry) }
{
    match shape {
        Some(Shape::Guarantee(_, list)) => list.as_slice(),
        _ => &[],
    }
}

/// The items of an asset.
#[tactic(auto, using(crate::proofs::Kept::items_are_few, crate::proofs::Kept::items_are_within))]
pub fn items_in(outcome: &Outcome, asset: u32) -> &[Item]
    ensures value { result.now ≡ shapes.items_in asset outcome.now }
    ensures few { length result.now ≤ 16 }
    ensures within { total result.now < 2 ^ 64 }
{
    let _assets = outcome.assets();
    items_of(shape_in(outcome, asset))
}

/// The list of an asset's guarantee.
#[tactic(auto, using(crate::proofs::Kept::list_is_few))]
pub fn list_in(outcome: &Outcome, asset: u32) -> &[Dest]
    ensures value { result.now ≡ shapes.list_in asset outcome.now }
    ensures few { length result.now ≤ 16 }
{
    let _assets = outcome.assets();
    list_of(shape_in(outcome, asset))
}

/// Whether a destination is in a list.
pub fn is_listed(list: &[Dest], to: &Dest) -> bool
    ensures { result ≡ shapes.is_listed list.now to.now }
{
    list.iter().any(|dest| dest.is(to))
}

fn listed_at(list: &[Dest], to: &Dest) -> usize
    ensures bound { result ≤ length list.now }
    ensures value { result ≡ shapes.position_of list.now to.now }
{
    match list {
        [] => 0,
        [dest, others @ ..] => {
            if dest.is(to) {
                0
            } else {
                listed_at(others, to) + 1
            }
        }
    }
}

/// The position of a destination in a list, or the list's length where it isn't there.
pub fn position_of(list: &[Dest], to: &Dest) -> u8
    requires { length list.now ≤ 16 }
    ensures { result ≡ shapes.position_of list.now to.now }
{
    listed_at(list, to) as u8
}

/// What two people have in an outcome.
pub fn amounts_in(asset: u32, first: &Name, second: &Name, outcome: &Outcome) -> (u64, u64)
    ensures { result ≡ amounts_in asset first.now second.now outcome.now }
{
    let items = items_in(outcome, asset);
    (
        amt(items, &Dest::Person(*first)),
        amt(items, &Dest::Person(*second)),
    )
}
