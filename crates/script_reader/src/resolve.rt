//! Leads the names of written outcomes to the people and channels that earlier steps declared.

ghost use Rattle.std.specs.Prelude.{◌≡◌, []};
ghost use Rattle.std.specs.List.{list_all};
ghost use Rattle.script_steps.specs.Rules.{Gives};
ghost use Rattle.script_reader.specs.Resolved.{knows_shape, knows_outcome, dest_of, item_of, each, shape_in, asset_in, outcome_in, pair_in, signed, opened, opened_on, opened_virtual, resolved};
ghost use Rattle.script_steps.specs.Context.{knows};

use crate::written::{
    Holding, OpenKeys, OpenOnKeys, OpenVirtualKeys, SignKeys, Written, WrittenAsset, WrittenShape,
};
use channel_values::{AssetOutcome, ByteFault, Dest, Item, Label, Listed, Outcome, Shape};
use network::Route;
use script_steps::{
    Context, Kind, OpenOnStep, OpenStep, OpenVirtualStep, Rule, SignStep, Step, StepFault,
};
use std::alloc::Global;

fn knows_holdings(context: &Context, holdings: &[Holding]) -> bool
    ensures { result ≡ list_all (λ h. knows context.now Kind.Dest h.to) holdings.now }
{
    holdings.iter().all(|h| context.knows(Kind::Dest, &h.to))
}

fn knows_shape(context: &Context, shape: &WrittenShape) -> bool
    ensures { result ≡ knows_shape context.now shape.now }
{
    match shape {
        WrittenShape::Items(holdings) => knows_holdings(context, holdings.as_slice()),
        WrittenShape::List(target, list) => {
            context.knows(Kind::Channel, target) && context.knows_all(Kind::Dest, list.as_slice())
        }
    }
}

/// Whether each name of an outcome is declared as what its key needs.
pub(crate) fn knows_outcome(context: &Context, assets: &[WrittenAsset]) -> bool
    ensures { result ≡ knows_outcome context.now assets.now }
{
    assets.iter().all(|a| knows_shape(context, &a.shape))
}

fn dest_of(context: &Context, name: &str) -> Result<Dest, StepFault>
    ensures { Gives (λ d. d) result (dest_of context.now name.now) }
{
    if let Some(person) = context.person_by(name) {
        return Ok(Dest::Person(person.digest));
    }
    match context.channel_by(name) {
        Some(channel) => Ok(Dest::Channel(channel.digest)),
        None => Err(StepFault::Broken(Rule::Name)),
    }
}

fn item_of(context: &Context, holding: &Holding) -> Result<Item, StepFault>
    ensures { Gives (λ i. i) result (item_of context.now holding.now) }
{
    let to = dest_of(context, holding.to.as_str())?;
    let amount = holding.amount;
    Ok(Item { to, amount })
}

#[tactic(auto, using(crate::proofs::Each::goes_on, crate::proofs::Each::stops))]
fn items_in(
    alloc: Global,
    context: &Context,
    holdings: &[Holding],
) -> Result<Listed<Item>, StepFault>
    ensures { Gives (λ l. l) result (each (item_of context.now) [] holdings.now) }
{
    let mut items = Listed::make(Vec::new(alloc));
    for holding in holdings {
        let item = item_of(context, holding)?;
        items.push(item)?;
    }
    Ok(items)
}

#[tactic(auto, using(crate::proofs::Each::goes_on, crate::proofs::Each::stops))]
fn dests_in(alloc: Global, context: &Context, names: &[Label]) -> Result<Listed<Dest>, StepFault>
    ensures { Gives (λ l. l) result (each (dest_of context.now) [] names.now) }
{
    let mut dests = Listed::make(Vec::new(alloc));
    for name in names {
        let dest = dest_of(context, name.as_str())?;
        dests.push(dest)?;
    }
    Ok(dests)
}

fn shape_in(alloc: Global, context: &Context, shape: &WrittenShape) -> Result<Shape, StepFault>
    ensures { Gives (λ s. s) result (shape_in context.now shape.now) }
{
    match shape {
        WrittenShape::Items(holdings) => {
            let items = items_in(alloc, context, holdings.as_slice())?;
            Ok(Shape::Allocation(items))
        }
        WrittenShape::List(target, list) => {
            let Some(channel) = context.channel_by(target.as_str()) else {
                return Err(StepFault::Broken(Rule::Name));
            };
            let target = channel.digest;
            let dests = dests_in(alloc, context, list.as_slice())?;
            Ok(Shape::Guarantee(target, dests))
        }
    }
}

fn asset_in(
    alloc: Global,
    context: &Context,
    written: &WrittenAsset,
) -> Result<AssetOutcome, StepFault>
    ensures { Gives (λ o. o) result (asset_in context.now written.now) }
{
    let shape = shape_in(alloc, context, &written.shape)?;
    match u32::try_from(written.asset) {
        Ok(asset) => Ok(AssetOutcome { asset, shape }),
        Err(_) => Err(StepFault::Broken(Rule::Limit)),
    }
}

#[tactic(auto, using(crate::proofs::Each::goes_on, crate::proofs::Each::stops))]
fn assets_in(
    alloc: Global,
    context: &Context,
    written: &[WrittenAsset],
) -> Result<Vec<AssetOutcome>, StepFault>
    ensures { Gives (λ v. v.items) result (each (asset_in context.now) [] written.now) }
{
    let mut assets = Vec::new(alloc);
    for one in written {
        let asset = asset_in(alloc, context, one)?;
        assets.push(asset)?;
    }
    Ok(assets)
}

/// The outcome that the names give.
fn outcome_in(
    alloc: Global,
    context: &Context,
    written: &[WrittenAsset],
) -> Result<Outcome, StepFault>
    ensures { Gives (λ o. o) result (outcome_in context.now written.now) }
{
    let assets = assets_in(alloc, context, written)?;
    match Outcome::make(alloc, assets) {
        Ok(outcome) => Ok(outcome),
        Err(ByteFault::NoMemory) => Err(StepFault::NoMemory),
        Err(_) => Err(StepFault::Broken(Rule::Limit)),
    }
}

fn pair_in(amounts: &[u64]) -> Result<(u64, u64), StepFault>
    ensures { Gives (λ p. p) result (pair_in amounts.now) }
{
    match amounts {
        [first, second] => Ok((*first, *second)),
        _ => Err(StepFault::Broken(Rule::Limit)),
    }
}

fn signed(alloc: Global, context: &Context, keys: SignKeys) -> Result<Step, StepFault>
    ensures { Gives (λ s. s) result (signed context.now keys) }
{
    let outcome = outcome_in(alloc, context, keys.outcome.as_slice())?;
    let proposal = outcome_in(alloc, context, keys.proposal.as_slice())?;
    Ok(Step::Sign(SignStep {
        name: keys.name,
        channel: keys.channel,
        by: keys.by,
        turn: keys.turn,
        is_final: keys.is_final,
        outcome,
        votes: keys.votes,
        proposal,
    }))
}

fn opened(alloc: Global, context: &Context, keys: OpenKeys) -> Result<Step, StepFault>
    ensures { Gives (λ s. s) result (opened context.now keys) }
{
    let outcome = outcome_in(alloc, context, keys.outcome.as_slice())?;
    Ok(Step::Open(OpenStep {
        who: keys.who,
        channel: keys.channel,
        outcome,
    }))
}

fn opened_on(keys: OpenOnKeys) -> Result<Step, StepFault>
    ensures { Gives (λ s. s) result (opened_on keys) }
{
    let amounts = pair_in(keys.amounts.as_slice())?;
    Ok(Step::OpenOn(OpenOnStep {
        who: keys.who,
        ledger: keys.ledger,
        channel: keys.channel,
        asset: keys.asset,
        amounts,
    }))
}

fn opened_virtual(keys: OpenVirtualKeys) -> Result<Step, StepFault>
    ensures { Gives (λ s. s) result (opened_virtual keys) }
{
    let amounts = pair_in(keys.amounts.as_slice())?;
    Ok(Step::OpenVirtual(OpenVirtualStep {
        who: keys.who,
        route: Route::Plain,
        ledgers: keys.ledgers,
        guarantors: keys.guarantors,
        joint: keys.joint,
        channel: keys.channel,
        asset: keys.asset,
        amounts,
    }))
}

/// The step with the outcomes that its names give, and with its two amounts.
pub(crate) fn resolved(
    alloc: Global,
    context: &Context,
    written: Written,
) -> Result<Step, StepFault>
    ensures { Gives (λ s. s) result (resolved context.now written) }
{
    match written {
        Written::Plain(step) => Ok(step),
        Written::Sign(keys) => signed(alloc, context, keys),
        Written::Open(keys) => opened(alloc, context, keys),
        Written::OpenOn(keys) => opened_on(keys),
        Written::OpenVirtual(keys) => opened_virtual(keys),
    }
}
