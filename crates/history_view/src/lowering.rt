//! Outcomes of which one item is lowered.

ghost use Rattle.std.specs.Prelude.{◌≡◌, ◌∷◌, [], IfOk};
ghost use Rattle.channel_values.specs.Outcomes.{IsOutcome};
ghost use Rattle.call_history.specs.Rest.{lower_at, lower_shape, lower_outcome};

use channel_values::{AssetOutcome, ByteFault, Item, Listed, NoMemory, Outcome, Shape};
use std::alloc::Global;

/// The outcome of these assets, which are those of an outcome.
pub fn outcome_of(alloc: Global, assets: Vec<AssetOutcome>) -> Result<Outcome, NoMemory>
    requires { IsOutcome assets.items }
    ensures { IfOk result (λ outcome. outcome ≡ assets.items) }
{
    match Outcome::make(alloc, assets) {
        Ok(outcome) => Ok(outcome),
        Err(ByteFault::NoMemory) => Err(NoMemory),
        Err(_) => unreachable!(),
    }
}

/// The items, of which the one at a place is lowered.
#[tactic(auto, using(crate::proofs::Lowered::lower_there, crate::proofs::Lowered::lower_past))]
fn lowered_items(items: &Listed<Item>, place: usize, amount: u64) -> Result<Listed<Item>, NoMemory>
    ensures { IfOk result (λ lowered. lowered ≡ lower_at items.now place amount) }
{
    let mut lowered = items.copy()?;
    if place < lowered.as_slice().len() {
        let item = lowered.as_slice()[place];
        lowered.set(
            place,
            Item {
                to: item.to,
                amount: item.amount.saturating_sub(amount),
            },
        );
    }
    Ok(lowered)
}

fn lowered_shape(shape: &Shape, place: usize, amount: u64) -> Result<Shape, NoMemory>
    ensures { IfOk result (λ lowered. lowered ≡ lower_shape shape.now place amount) }
{
    match shape {
        Shape::Allocation(items) => {
            let lowered = lowered_items(items, place, amount)?;
            Ok(Shape::Allocation(lowered))
        }
        Shape::Guarantee(_, _) => shape.copy(),
    }
}

fn lowered_asset(
    o: &AssetOutcome,
    asset: u32,
    place: usize,
    amount: u64,
) -> Result<AssetOutcome, NoMemory>
    ensures { IfOk result (λ lowered. lower_outcome (o.now ∷ []) asset place amount ≡ lowered ∷ []) }
{
    if o.asset != asset {
        return o.copy();
    }
    let shape = lowered_shape(&o.shape, place, amount)?;
    Ok(AssetOutcome { asset, shape })
}

fn lowered_assets(
    alloc: Global,
    assets: &[AssetOutcome],
    asset: u32,
    place: usize,
    amount: u64,
) -> Result<Vec<AssetOutcome>, NoMemory>
    ensures { IfOk result (λ lowered. lowered.items ≡ lower_outcome assets.now asset place amount) }
{
    let mut lowered = Vec::new(alloc);
    for o in assets {
        let less = lowered_asset(o, asset, place, amount)?;
        lowered.push(less)?;
    }
    Ok(lowered)
}

/// The outcome, of which an asset's item at a place is lowered.
pub(crate) fn lowered_outcome(
    alloc: Global,
    outcome: &Outcome,
    asset: u32,
    place: usize,
    amount: u64,
) -> Result<Outcome, NoMemory>
    ensures { IfOk result (λ lowered. lowered ≡ lower_outcome outcome.now asset place amount) }
{
    let assets = lowered_assets(alloc, outcome.assets(), asset, place, amount)?;
    outcome_of(alloc, assets)
}
