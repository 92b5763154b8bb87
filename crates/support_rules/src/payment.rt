//! The payment application: the mover may only pay.

ghost use Rattle.std.specs.Prelude.{◌≡◌, ◌<◌, length};
ghost use Rattle.std.specs.List.{AllByRecursion};
ghost use Rattle.std.specs.Result.{result_err};
ghost use Rattle.channel_values.specs.Outcomes.{is_same, IsShape, IsAssetOutcome};
ghost use Rattle.channel_values.specs.Words.{all_along, first_along};
ghost use Rattle.support_rules.specs.Rules as rules;

use channel_values::{AssetOutcome, Dest, Item, Name, Shape, State, StepFault};

fn is_one_of(people: &[Name], dest: &Dest) -> bool
    ensures { result ≡ rules.is_one_of people.now dest.now }
{
    people.iter().any(|name| dest.is(&Dest::Person(*name)))
}

fn is_alike(people: &[Name], a: &Item, b: &Item) -> bool
    ensures { result ≡ rules.is_alike people.now a.now b.now }
{
    a.to.is(&b.to) && (is_one_of(people, &a.to) || a.amount == b.amount)
}

fn are_items_alike(people: &[Name], from: &[Item], to: &[Item]) -> bool
    ensures { result ≡ all_along (rules.is_alike people.now) from.now to.now }
{
    from.len() == to.len() && from.iter().zip(to).all(|(a, b)| is_alike(people, a, b))
}

fn are_dests_alike(from: &[Dest], to: &[Dest]) -> bool
    ensures { result ≡ all_along is_same from.now to.now }
{
    from.len() == to.len() && from.iter().zip(to).all(|(a, b)| a.is(b))
}

fn are_shapes_alike(people: &[Name], from: &Shape, to: &Shape) -> bool
    ensures { result ≡ rules.are_shapes_alike people.now from.now to.now }
{
    match (from, to) {
        (Shape::Allocation(from), Shape::Allocation(to)) => {
            are_items_alike(people, from.as_slice(), to.as_slice())
        }
        (Shape::Guarantee(target, from), Shape::Guarantee(other, to)) => {
            target == other && are_dests_alike(from.as_slice(), to.as_slice())
        }
        _ => false,
    }
}

fn item_step(people: &[Name], mover: usize, from: &Item, to: &Item) -> Result<(), StepFault>
    requires pair { length people.now ≡ 2 }
    requires mover { mover < 2 }
    ensures { result_err result ≡ rules.item_fault people.now mover from.now to.now }
{
    if from.amount < to.amount && from.to.is(&Dest::Person(people[mover])) {
        return Err(StepFault::Raised);
    }
    if to.amount < from.amount && from.to.is(&Dest::Person(people[1 - mover])) {
        return Err(StepFault::Lowered);
    }
    Ok(())
}

fn items_step(people: &[Name], mover: usize, from: &[Item], to: &[Item]) -> Result<(), StepFault>
    requires pair { length people.now ≡ 2 }
    requires mover { mover < 2 }
    ensures { result_err result ≡ first_along (rules.item_fault people.now mover) from.now to.now }
{
    for (a, b) in from.iter().zip(to) {
        item_step(people, mover, a, b)?;
    }
    Ok(())
}

fn shape_step(people: &[Name], mover: usize, from: &Shape, to: &Shape) -> Result<(), StepFault>
    requires pair { length people.now ≡ 2 }
    requires mover { mover < 2 }
    ensures { result_err result ≡ rules.items_fault people.now mover from.now to.now }
{
    match (from, to) {
        (Shape::Allocation(from), Shape::Allocation(to)) => {
            items_step(people, mover, from.as_slice(), to.as_slice())
        }
        _ => Ok(()),
    }
}

fn is_asset_alike(people: &[Name], from: &AssetOutcome, to: &AssetOutcome) -> bool
    ensures { result ≡ rules.are_assets_alike people.now from.now to.now }
{
    from.asset == to.asset && are_shapes_alike(people, &from.shape, &to.shape)
}

fn are_assets_alike(people: &[Name], from: &[AssetOutcome], to: &[AssetOutcome]) -> bool
    ensures { result ≡ all_along (rules.are_assets_alike people.now) from.now to.now }
{
    from.len() == to.len()
        && from
            .iter()
            .zip(to)
            .all(|(a, b)| is_asset_alike(people, a, b))
}

fn assets_step(
    people: &[Name],
    mover: usize,
    from: &[AssetOutcome],
    to: &[AssetOutcome],
) -> Result<(), StepFault>
    requires pair { length people.now ≡ 2 }
    requires mover { mover < 2 }
    ensures { result_err result ≡ first_along (rules.asset_fault people.now mover) from.now to.now }
{
    for (a, b) in from.iter().zip(to) {
        shape_step(people, mover, &a.shape, &b.shape)?;
    }
    Ok(())
}

fn total_of(shape: &Shape) -> u64
    requires { IsShape shape.now }
    ensures { result ≡ rules.total_of shape.now }
{
    match shape {
        Shape::Allocation(items) => items.as_slice().iter().map(|item| item.amount).sum(),
        Shape::Guarantee(_, _) => 0,
    }
}

fn are_totals_alike(from: &[AssetOutcome], to: &[AssetOutcome]) -> bool
    requires from { AllByRecursion IsAssetOutcome from.now }
    requires to { AllByRecursion IsAssetOutcome to.now }
    ensures { result ≡ all_along rules.have_one_total from.now to.now }
{
    if from.len() != to.len() {
        return false;
    }
    for (a, b) in from.iter().zip(to) {
        if total_of(&a.shape) != total_of(&b.shape) {
            return false;
        }
    }
    true
}

pub(crate) fn payment_step(
    people: &[Name],
    mover: usize,
    from: &State,
    to: &State,
) -> Result<(), StepFault>
    requires pair { length people.now ≡ 2 }
    requires mover { mover < 2 }
    ensures { result_err result ≡ rules.payment_fault people.now mover from.now to.now }
{
    if !from.app_bytes().is_empty() || !to.app_bytes().is_empty() {
        return Err(StepFault::Data);
    }
    let before = from.outcome().assets();
    let after = to.outcome().assets();
    if !are_assets_alike(people, before, after) {
        return Err(StepFault::Outcome);
    }
    assets_step(people, mover, before, after)?;
    if !are_totals_alike(before, after) {
        return Err(StepFault::Outcome);
    }
    Ok(())
}
