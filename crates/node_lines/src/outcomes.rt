//! Outcomes that a channel is opened with.

ghost use Rattle.std.specs.Prelude.{◌≡◌, []};
ghost use Rattle.serde_json.specs.View.{view, items_view};
ghost use Rattle.node_lines.specs.Faults.{Gives};
ghost use Rattle.node_lines.specs.Values.{many_in};
ghost use Rattle.node_lines.specs.Outcomes.{person_in, channel_in, dest_in, item_of, asset_of, outcome_at};

use crate::faults::{Invalid, LineError};
use crate::values::{array_at, key_in, keys, name_in, number_of, small_at, text_of, two_of};
use channel_values::{AssetOutcome, ByteFault, Dest, Item, Listed, Outcome, Shape, person_name};
use serde_json::Value;
use std::alloc::Global;

fn person_in(digits: &str) -> Result<Dest, LineError>
    ensures { Gives (λ d. d) result (person_in digits.now) }
{
    let key = key_in(digits)?;
    Ok(Dest::Person(person_name(&key)))
}

fn channel_in(digits: &str) -> Result<Dest, LineError>
    ensures { Gives (λ d. d) result (channel_in digits.now) }
{
    let name = name_in(digits)?;
    Ok(Dest::Channel(name))
}

fn dest_in(digits: &str) -> Result<Dest, LineError>
    ensures { Gives (λ d. d) result (dest_in digits.now) }
{
    if digits.len() == 112 {
        person_in(digits)
    } else {
        channel_in(digits)
    }
}

fn item_of(value: &Value) -> Result<Item, LineError>
    ensures { Gives (λ i. i) result (item_of (view value.now)) }
{
    let (to, amount) = two_of(value)?;
    let digits = text_of(to)?;
    let to = dest_in(digits)?;
    let amount = number_of(amount)?;
    Ok(Item { to, amount })
}

#[tactic(auto, using(crate::proofs::Many::goes_on, crate::proofs::Many::stops))]
fn items_in(alloc: Global, values: &[Value]) -> Result<Listed<Item>, LineError>
    ensures { Gives (λ l. l) result (many_in item_of [] (items_view values.now)) }
{
    let mut items = Listed::make(Vec::new(alloc));
    for value in values {
        let item = item_of(value)?;
        items.push(item)?;
    }
    Ok(items)
}

fn asset_of(alloc: Global, value: &Value) -> Result<AssetOutcome, LineError>
    ensures { Gives (λ o. o) result (asset_of (view value.now)) }
{
    keys(value, 2)?;
    let asset = small_at(value, "asset")?;
    let values = array_at(value, "items")?;
    let items = items_in(alloc, values)?;
    Ok(AssetOutcome {
        asset,
        shape: Shape::Allocation(items),
    })
}

#[tactic(auto, using(crate::proofs::Many::goes_on, crate::proofs::Many::stops))]
fn assets_in(alloc: Global, values: &[Value]) -> Result<Vec<AssetOutcome>, LineError>
    ensures { Gives (λ v. v.items) result (many_in asset_of [] (items_view values.now)) }
{
    let mut assets = Vec::new(alloc);
    for value in values {
        let asset = asset_of(alloc, value)?;
        assets.push(asset)?;
    }
    Ok(assets)
}

/// The outcome at the key.
pub(crate) fn outcome_at(alloc: Global, value: &Value, key: &str) -> Result<Outcome, LineError>
    ensures { Gives (λ o. o) result (outcome_at key.now (view value.now)) }
{
    let values = array_at(value, key)?;
    let assets = assets_in(alloc, values)?;
    match Outcome::make(alloc, assets) {
        Ok(outcome) => Ok(outcome),
        Err(ByteFault::NoMemory) => Err(LineError::NoMemory),
        Err(_) => Err(LineError::Invalid(Invalid::Limit)),
    }
}
