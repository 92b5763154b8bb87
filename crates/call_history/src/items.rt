//! What an outcome has for an asset, and the places in it.

ghost use Rattle.std.specs.Prelude.{◌≡◌, ◌≤◌, length};
ghost use Rattle.std.specs.Option.{option_map};
ghost use Rattle.channel_values.specs.Outcomes.{is_same};
ghost use Rattle.call_history.specs.Dues.{place_of, shape_in};
ghost use Rattle.call_history.specs.History.{item_dest, listed_dest};

use channel_values::{AssetOutcome, Dest, Item, Outcome, Shape};

fn shape_among(assets: &[AssetOutcome], asset: u32) -> Option<&Shape>
    ensures { option_map (λ s. s.now) result ≡ shape_in assets.now asset }
{
    match assets {
        [] => None,
        [first, ..] if first.asset == asset => Some(&first.shape),
        [_, rest @ ..] => shape_among(rest, asset),
    }
}

/// What an outcome has for an asset.
pub fn shape_in(outcome: &Outcome, asset: u32) -> Option<&Shape>
    ensures { option_map (λ s. s.now) result ≡ shape_in outcome.now asset }
{
    shape_among(outcome.assets(), asset)
}

/// Who a transfer of an item pays, where the shape is an allocation with this many items.
pub(crate) fn item_dest(shape: Option<&Shape>, index: u8) -> Option<Dest>
    ensures { result ≡ item_dest (option_map (λ s. s.now) shape.entry) index }
{
    match shape {
        Some(Shape::Allocation(items)) => match items.as_slice().get(index as usize) {
            Some(item) => Some(item.to),
            None => None,
        },
        _ => None,
    }
}

/// Who a claim by a guarantee pays, where the shape is a guarantee with this position in its list.
pub fn listed_dest(shape: Option<&Shape>, position: u8) -> Option<Dest>
    ensures { result ≡ listed_dest (option_map (λ s. s.now) shape.entry) position }
{
    match shape {
        Some(Shape::Guarantee(_, list)) => match list.as_slice().get(position as usize) {
            Some(to) => Some(*to),
            None => None,
        },
        _ => None,
    }
}

fn is_for(item: &Item, to: &Dest) -> bool
    ensures { result ≡ is_same item.now.to to.now }
{
    item.to == *to
}

/// The place of the first item for a destination, or the number of items where none is.
pub fn place_of(items: &[Item], to: &Dest) -> usize
    ensures value { result ≡ place_of items.now to.now }
    ensures within { result ≤ length items.now }
{
    for (place, item) in items.iter().enumerate() {
        if is_for(item, to) {
            return place;
        }
    }
    items.len()
}
