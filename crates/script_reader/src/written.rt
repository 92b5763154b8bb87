//! Steps as a script writes them, before their names lead anywhere.

ghost use Rattle.std.specs.Prelude.{◌≡◌, []};
ghost use Rattle.serde_json.specs.View.{view, items_view};
ghost use Rattle.script_steps.specs.Rules.{Gives};
ghost use Rattle.script_reader.specs.Kinds.{many_in};
ghost use Rattle.script_reader.specs.Written.{has_items, holding_of, items_of, list_of, shape_of, asset_of, outcome_at};

use crate::kinds::{array_at, has_keys, name_at, name_of, names_at, number_at, number_of};
use channel_values::{Label, Listed};
use script_steps::{Rule, Step, StepFault};
use serde_json::Value;
use std::alloc::Global;

/// A name and its amount.
#[derive(Drop)]
pub struct Holding {
    pub to: Label,
    pub amount: u64,
}

/// How the outcome of an asset is written.
#[derive(Drop)]
pub enum WrittenShape {
    Items(Listed<Holding>),
    List(Label, Listed<Label>),
}

/// The outcome of an asset, by names.
#[derive(Drop)]
pub struct WrittenAsset {
    pub asset: u64,
    pub shape: WrittenShape,
}

/// The keys of a sign step, with its outcomes as they are written.
#[derive(Drop)]
pub struct SignKeys {
    pub name: Label,
    pub channel: Label,
    pub by: Label,
    pub turn: u64,
    pub is_final: bool,
    pub outcome: Listed<WrittenAsset>,
    pub votes: u64,
    pub proposal: Listed<WrittenAsset>,
}

/// The keys of an open step, with its outcome as it is written.
#[derive(Drop)]
pub struct OpenKeys {
    pub who: Listed<Label>,
    pub channel: Label,
    pub outcome: Listed<WrittenAsset>,
}

/// The keys of an open_on step, with any number of amounts.
#[derive(Drop)]
pub struct OpenOnKeys {
    pub who: Listed<Label>,
    pub ledger: Label,
    pub channel: Label,
    pub asset: u64,
    pub amounts: Listed<u64>,
}

/// The keys of an open_virtual step, with any number of amounts.
#[derive(Drop)]
pub struct OpenVirtualKeys {
    pub who: Listed<Label>,
    pub ledgers: Listed<Label>,
    pub guarantors: Listed<Label>,
    pub joint: Label,
    pub channel: Label,
    pub asset: u64,
    pub amounts: Listed<u64>,
}

/// A step of which nothing but the shape is known.
#[derive(Drop)]
pub enum Written {
    /// A step that has its values as they are written.
    Plain(Step),
    Sign(SignKeys),
    Open(OpenKeys),
    OpenOn(OpenOnKeys),
    OpenVirtual(OpenVirtualKeys),
}

#[tactic(auto, using(crate::proofs::Counts::item_count_view))]
fn has_items(value: &Value, count: usize) -> bool
    ensures { result ≡ has_items (view value.now) count }
{
    match value.as_array() {
        Some(values) => values.len() == count,
        None => false,
    }
}

fn holding_of(alloc: Global, value: &Value) -> Result<Holding, StepFault>
    ensures { Gives (λ h. h) result (holding_of (view value.now)) }
{
    if !has_items(value, 2) {
        return Err(StepFault::Broken(Rule::Shape));
    }
    let (Some(to), Some(amount)) = (value.get(0), value.get(1)) else {
        return Err(StepFault::Broken(Rule::Shape));
    };
    let to = name_of(alloc, to)?;
    let amount = number_of(amount)?;
    Ok(Holding { to, amount })
}

#[tactic(auto, using(crate::proofs::Many::goes_on, crate::proofs::Many::stops))]
fn holdings_in(alloc: Global, values: &[Value]) -> Result<Listed<Holding>, StepFault>
    ensures { Gives (λ l. l) result (many_in holding_of [] (items_view values.now)) }
{
    let mut holdings = Listed::make(Vec::new(alloc));
    for value in values {
        let holding = holding_of(alloc, value)?;
        holdings.push(holding)?;
    }
    Ok(holdings)
}

fn items_of(alloc: Global, value: &Value) -> Result<WrittenShape, StepFault>
    ensures { Gives (λ s. s) result (items_of (view value.now)) }
{
    let values = array_at(value, "items")?;
    let holdings = holdings_in(alloc, values)?;
    Ok(WrittenShape::Items(holdings))
}

fn list_of(alloc: Global, value: &Value) -> Result<WrittenShape, StepFault>
    ensures { Gives (λ s. s) result (list_of (view value.now)) }
{
    let target = name_at(alloc, value, "target")?;
    let list = names_at(alloc, value, "list")?;
    Ok(WrittenShape::List(target, list))
}

fn shape_of(alloc: Global, value: &Value) -> Result<WrittenShape, StepFault>
    ensures { Gives (λ s. s) result (shape_of (view value.now)) }
{
    if has_keys(value, 2) {
        items_of(alloc, value)
    } else if has_keys(value, 3) {
        list_of(alloc, value)
    } else {
        Err(StepFault::Broken(Rule::Shape))
    }
}

fn asset_of(alloc: Global, value: &Value) -> Result<WrittenAsset, StepFault>
    ensures { Gives (λ o. o) result (asset_of (view value.now)) }
{
    let asset = number_at(value, "asset")?;
    let shape = shape_of(alloc, value)?;
    Ok(WrittenAsset { asset, shape })
}

#[tactic(auto, using(crate::proofs::Many::goes_on, crate::proofs::Many::stops))]
fn assets_in(alloc: Global, values: &[Value]) -> Result<Listed<WrittenAsset>, StepFault>
    ensures { Gives (λ l. l) result (many_in asset_of [] (items_view values.now)) }
{
    let mut assets = Listed::make(Vec::new(alloc));
    for value in values {
        let asset = asset_of(alloc, value)?;
        assets.push(asset)?;
    }
    Ok(assets)
}

/// The outcome at the key, as it is written.
pub(crate) fn outcome_at(
    alloc: Global,
    value: &Value,
    key: &str,
) -> Result<Listed<WrittenAsset>, StepFault>
    ensures { Gives (λ l. l) result (outcome_at key.now (view value.now)) }
{
    let values = array_at(value, key)?;
    assets_in(alloc, values)
}
