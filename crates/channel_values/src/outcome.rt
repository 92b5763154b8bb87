//! Outcomes, which are valid by their type.

ghost use Rattle.std.specs.Prelude.{◌≡◌, ◌++◌, ◌↔◌, IsTrue, IfOk, OnOk, OnErr, Ok, None, false, List, is_ok};
ghost use Rattle.channel_values.specs.declared.value.AssetOutcome.{AssetOutcome};
ghost use Rattle.channel_values.specs.Outcomes.{IsOutcome};
ghost use Rattle.channel_values.specs.Flat.{shape_of, assets_of};
ghost use Rattle.channel_values.specs.Items.{item_at_place, item_of};
ghost use Rattle.channel_values.specs.Spelling.{outcome};
ghost use Rattle.channel_values.specs.Reading.{Gives, outcome_at, outcome_of};

use crate::cursor::ended;
use crate::fault::{ByteFault, NoMemory};
use crate::flat::{FlatAsset, FlatShape, flat_outcome, take_flat};
use crate::listed::Listed;
use crate::value::{AssetOutcome, Item, Shape};
use crate::writing::put_assets;
use std::alloc::Global;
use std::marker::Model;

/// What a channel ends with, for each asset. Contracts see the list.
#[derive(Drop)]
pub struct Outcome {
    assets: Vec<AssetOutcome>,
    bytes: Vec<u8>,
}

impl Model for Outcome {
    ghost use Rattle.std.specs.Prelude.{◌≡◌, List};
    ghost use Rattle.channel_values.specs.declared.value.AssetOutcome.{AssetOutcome};
    ghost use Rattle.channel_values.specs.Outcomes.{IsOutcome};
    ghost use Rattle.channel_values.specs.Spelling.{outcome};

    ghost Value = { List AssetOutcome };

    ghost view = { λ o. o.assets.items };

    ghost invariant = { λ o. IsOutcome o.assets.items × (o.bytes.items ≡ outcome o.assets.items) };
}

impl Outcome {
    /// The outcome of these assets, or the fault that reading its spelling would give.
    pub fn make(alloc: Global, assets: Vec<AssetOutcome>) -> Result<Outcome, ByteFault>
        ensures made { IfOk result (λ o. o ≡ assets.items) }
        ensures exact { Gives (λ o. o) result (outcome_of (outcome assets.items)) }
        ensures only { IsOutcome assets.items → Gives (λ o. o) result (Ok assets.items) }
    {
        let mut bytes = Vec::new(alloc);
        put_assets(&mut bytes, &assets)?;
        read_outcome(alloc, &bytes)
    }

    /// A second outcome that equals this one.
    pub fn copy(&self) -> Result<Outcome, NoMemory>
        ensures { IfOk result (λ o. o ≡ self.now) }
    {
        let alloc = *self.bytes.allocator();
        let assets = copy_assets(alloc, &self.assets)?;
        let bytes = Vec::from_slice(alloc, &self.bytes)?;
        Ok(Outcome { assets, bytes })
    }

    pub fn assets(&self) -> &[AssetOutcome]
        ensures value { result.now ≡ self.now }
        ensures valid { IsOutcome self.now }
    {
        self.assets.as_slice()
    }

    /// The canonical bytes.
    pub fn bytes(&self) -> &[u8]
        ensures value { result.now ≡ outcome self.now }
        ensures valid { IsOutcome self.now }
    {
        self.bytes.as_slice()
    }
}

fn copy_assets(alloc: Global, assets: &[AssetOutcome]) -> Result<Vec<AssetOutcome>, NoMemory>
    ensures { IfOk result (λ v. v.items ≡ assets.now) }
{
    let mut copies = Vec::new(alloc);
    for o in assets {
        let copy = o.copy()?;
        copies.push(copy)?;
    }
    Ok(copies)
}

fn heap_shape(alloc: Global, shape: &FlatShape) -> Result<Shape, NoMemory>
    ensures { IfOk result (λ s. s ≡ shape_of shape.now) }
{
    match shape {
        FlatShape::Allocation(items) => {
            let items = Vec::from_slice(alloc, items.as_slice())?;
            Ok(Shape::Allocation(Listed::make(items)))
        }
        FlatShape::Guarantee(target, dests) => {
            let dests = Vec::from_slice(alloc, dests.as_slice())?;
            Ok(Shape::Guarantee(*target, Listed::make(dests)))
        }
    }
}

fn heap_assets(alloc: Global, assets: &[FlatAsset]) -> Result<Vec<AssetOutcome>, NoMemory>
    ensures { IfOk result (λ v. v.items ≡ assets_of assets.now) }
{
    let mut copies = Vec::new(alloc);
    for o in assets {
        let shape = heap_shape(alloc, &o.shape)?;
        copies.push(AssetOutcome {
            asset: o.asset,
            shape,
        })?;
    }
    Ok(copies)
}

/// An outcome, and the bytes after it.
pub fn take_outcome(
    alloc: Global,
    whole: usize,
    bytes: &[u8],
) -> Result<(Outcome, &[u8]), ByteFault>
    ensures { Gives (λ x. (x.0, x.1.now)) result (outcome_at whole bytes.now) }
{
    let (flat, rest) = take_flat(whole, bytes)?;
    let assets = heap_assets(alloc, flat.as_slice())?;
    let kept = Vec::from_slice(alloc, &bytes[..bytes.len() - rest.len()])?;
    Ok((
        Outcome {
            assets,
            bytes: kept,
        },
        rest,
    ))
}

#[tactic(auto, unfolding(crate::specs::Reading::all_of))]
fn outcome_from(alloc: Global, bytes: &[u8]) -> Result<Outcome, ByteFault>
    ensures { Gives (λ x. x) result (outcome_of bytes.now) }
{
    let whole = bytes.len();
    let (outcome, rest) = take_outcome(alloc, whole, bytes)?;
    ended(whole, outcome, rest)
}

/// The outcome that the bytes spell, all of the bytes, or the first fault.
pub fn read_outcome(alloc: Global, bytes: &[u8]) -> Result<Outcome, ByteFault>
    // What is read is valid, and the input is its spelling.
    ensures found { IfOk result (λ o. IsOutcome o × (bytes.now ≡ outcome o)) }
    // A spelling is read, unless memory runs out.
    ensures only { (o : List AssetOutcome) → IsOutcome o → bytes.now ≡ outcome o → Gives (λ x. x) result (Ok o) }
    // Which fault it is.
    ensures exact { Gives (λ x. x) result (outcome_of bytes.now) }
{
    outcome_from(alloc, bytes)
}

/// Appends the one spelling, or nothing.
pub fn write_outcome(value: &Outcome, out: &mut Vec<u8>) -> Result<(), NoMemory>
    ensures written { OnOk result (out.new.items ≡ out.old.items ++ outcome value.now) }
    ensures kept { OnErr result (out.new.items ≡ out.old.items) }
{
    out.extend_from_slice(&value.bytes)?;
    Ok(())
}

/// Whether the bytes spell an outcome.
pub fn is_outcome(bytes: &[u8]) -> bool
    ensures exact { result ≡ is_ok (outcome_of bytes.now) }
    ensures spelled { IsTrue result ↔ ((o : List AssetOutcome) × IsOutcome o × (bytes.now ≡ outcome o)) }
{
    flat_outcome(bytes).is_ok()
}

/// Whether the bytes are the outcome's spelling.
pub fn outcome_is(value: &Outcome, bytes: &[u8]) -> bool
    ensures { IsTrue result ↔ (bytes.now ≡ outcome value.now) }
{
    value.bytes.as_slice() == bytes
}

fn item_at_place(shape: &FlatShape, place: usize) -> Option<Item>
    ensures { result ≡ item_at_place place (shape_of shape.now) }
{
    match shape {
        FlatShape::Allocation(items) => items.as_slice().get(place).copied(),
        FlatShape::Guarantee(_, _) => None,
    }
}

fn item_among(assets: &[FlatAsset], asset: u32, place: usize) -> Option<Item>
    ensures { result ≡ item_of asset place (assets_of assets.now) }
{
    match assets {
        [] => None,
        [first, _rest @ ..] if first.asset == asset => item_at_place(&first.shape, place),
        [_, rest @ ..] => item_among(rest, asset, place),
    }
}

/// The item at a place of an asset's allocation, in the outcome that the bytes spell. `None` where the asset isn't
/// there, is no allocation or has no such place, or where the bytes are no outcome's.
pub fn item_in(bytes: &[u8], asset: u32, place: usize) -> Option<Item>
    ensures found { (o : List AssetOutcome) → IsOutcome o → bytes.now ≡ outcome o → result ≡ item_of asset place o }
    ensures none { is_ok (outcome_of bytes.now) ≡ false → result ≡ None }
{
    match flat_outcome(bytes) {
        Ok(assets) => item_among(assets.as_slice(), asset, place),
        Err(_) => None,
    }
}
