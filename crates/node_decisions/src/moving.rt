//! The outcome of a payment, which is made only to be signed.

ghost use Rattle.std.specs.Prelude.{◌≡◌, ◌<◌, ◌≤◌, ◌+◌, ◌^◌, ◌++◌, ◌&&◌, ◌||◌, ◌==◌, [], nat_le, map, false, OnOk, OnErr, IfOk};
ghost use Rattle.std.specs.Option.{option_copied};
ghost use Rattle.channel_values.specs.declared.fault.ByteFault.TheVariants as faults;
ghost use Rattle.channel_values.specs.Outcomes.{total, IsOutcome};
ghost use Rattle.channel_values.specs.Parts.{state_with};
ghost use Rattle.support_rules.specs.Rules.{total_of};
ghost use Rattle.channel_values.specs.Amounts as amounts;
ghost use Rattle.funding_plans.specs.Shapes as shapes;
ghost use Rattle.channel_node.specs.Refusing as refusing;
ghost use Rattle.node_decisions.specs.Paying.{or_nothing, AreWithin, OnlyMemory};

use channel_values::{AssetOutcome, ByteFault, Dest, Item, Listed, Outcome, Shape, State};
use funding_plans::{amt, has, items_in};
use std::alloc::Global;

/// An amount of an asset that goes from one destination to another.
#[derive(Clone, Copy, Debug, PartialEq, Eq)]
pub struct Payment {
    pub from: Dest,
    pub to: Dest,
    pub asset: u32,
    pub amount: u64,
}

fn sum_of(amount: u64, more: u64) -> Result<u64, ByteFault>
    ensures sum { IfOk result (λ n. n ≡ amount + more) }
    ensures large { OnErr result (2 ^ 64 ≤ amount + more) }
{
    let sum = amount as u128 + more as u128;
    if sum >= 1 << 64 {
        return Err(ByteFault::TotalTooLarge(0));
    }
    Ok(sum as u64)
}

impl Payment {
    /// Whether the amount is there, and somebody to get it.
    pub(crate) fn is_covered(&self, items: &[Item]) -> bool
        ensures { result ≡ (nat_le self.now.amount (amounts.amt items.now self.now.from) &&
            (self.now.amount == 0 || amounts.has items.now self.now.to)) }
    {
        self.amount <= amt(items, &self.from) && (self.amount == 0 || has(items, &self.to))
    }

    fn item(&self, item: &Item) -> Result<Item, ByteFault>
        ensures value { IfOk result (λ i. i ≡ refusing.moved_item self.now.from self.now.to self.now.amount item.now) }
        ensures large { OnErr result (2 ^ 64
            ≤ (refusing.moved_item self.now.from self.now.to self.now.amount item.now).amount) }
    {
        if item.to.is(&self.from) {
            return Ok(Item {
                to: item.to,
                amount: item.amount.saturating_sub(self.amount),
            });
        }
        if item.to.is(&self.to) {
            let amount = sum_of(item.amount, self.amount)?;
            return Ok(Item {
                to: item.to,
                amount,
            });
        }
        Ok(*item)
    }

    #[tactic(auto, using(crate::proofs::Moved::first_within, crate::proofs::Moved::others_within))]
    fn put_items(&self, out: &mut Vec<Item>, items: &[Item]) -> Result<(), ByteFault>
        ensures value { OnOk result (out.new.items ≡ out.old.items
            ++ map (refusing.moved_item self.now.from self.now.to self.now.amount) items.now) }
        ensures large { OnlyMemory (total
            (map (refusing.moved_item self.now.from self.now.to self.now.amount) items.now) < 2 ^ 64) result }
    {
        match items {
            [] => Ok(()),
            [item, others @ ..] => {
                let item = self.item(item)?;
                out.push(item)?;
                self.put_items(out, others)
            }
        }
    }

    fn shape(&self, alloc: Global, shape: &Shape) -> Result<Shape, ByteFault>
        ensures value { IfOk result (λ s.
            s ≡ refusing.moved_shape self.now.from self.now.to self.now.amount shape.now) }
        ensures large { OnlyMemory (total_of
            (refusing.moved_shape self.now.from self.now.to self.now.amount shape.now) < 2 ^ 64) result }
    {
        match shape {
            Shape::Allocation(items) => {
                let mut moved = Vec::new(alloc);
                self.put_items(&mut moved, items.as_slice())?;
                Ok(Shape::Allocation(Listed::make(moved)))
            }
            Shape::Guarantee(_, _) => {
                let copy = shape.copy()?;
                Ok(copy)
            }
        }
    }

    fn asset_outcome(&self, alloc: Global, o: &AssetOutcome) -> Result<AssetOutcome, ByteFault>
        ensures value { IfOk result (λ moved.
            moved ≡ refusing.moved_asset self.now.from self.now.to self.now.asset self.now.amount o.now) }
        ensures large { OnlyMemory (total_of
            (refusing.moved_asset self.now.from self.now.to self.now.asset self.now.amount o.now).shape
            < 2 ^ 64) result }
    {
        if o.asset == self.asset {
            let shape = self.shape(alloc, &o.shape)?;
            Ok(AssetOutcome {
                asset: o.asset,
                shape,
            })
        } else {
            let copy = o.copy()?;
            Ok(copy)
        }
    }

    fn put_assets(
        &self,
        alloc: Global,
        out: &mut Vec<AssetOutcome>,
        assets: &[AssetOutcome],
    ) -> Result<(), ByteFault>
        ensures value { OnOk result (out.new.items ≡ out.old.items
            ++ refusing.moved self.now.from self.now.to self.now.asset self.now.amount assets.now) }
        ensures large { OnlyMemory (AreWithin
            (refusing.moved self.now.from self.now.to self.now.asset self.now.amount assets.now)) result }
    {
        match assets {
            [] => Ok(()),
            [o, others @ ..] => {
                let moved = self.asset_outcome(alloc, o)?;
                out.push(moved)?;
                self.put_assets(alloc, out, others)
            }
        }
    }

    /// The assets of an outcome after the payment. Where the amount is there, it fails only when memory runs out.
    fn assets(
        &self,
        alloc: Global,
        outcome: Option<&Outcome>,
    ) -> Result<Vec<AssetOutcome>, ByteFault>
        ensures value { IfOk result (λ v.
            v.items ≡ refusing.moved self.now.from self.now.to self.now.asset self.now.amount
            (or_nothing (option_copied outcome.entry))) }
        ensures large { OnlyMemory (AreWithin
            (refusing.moved self.now.from self.now.to self.now.asset self.now.amount
            (or_nothing (option_copied outcome.entry)))) result }
    {
        let mut moved = Vec::new(alloc);
        if let Some(outcome) = outcome {
            self.put_assets(alloc, &mut moved, outcome.assets())?;
        }
        Ok(moved)
    }
}

/// The items of an asset, where there is an outcome.
pub(crate) fn items_of<'a>(outcome: Option<&'a Outcome>, asset: u32) -> &'a [Item]
    ensures { result.now ≡ shapes.items_in asset (or_nothing (option_copied outcome.entry)) }
{
    match outcome {
        None => &[],
        Some(outcome) => items_in(outcome, asset),
    }
}

/// The empty outcome and each other one are outcomes.
fn valid_of(outcome: Option<&Outcome>)
    ensures { IsOutcome (or_nothing (option_copied outcome.entry)) }
{
    if let Some(outcome) = outcome {
        let _ = outcome.assets();
    }
}

/// The state of a turn that pays. Where the turn fits a state and the amount is there, it fails only when memory runs
/// out.
#[tactic(auto, using(crate::proofs::Moved::assets_are_within, crate::proofs::Moved::outcome_is_made, crate::proofs::Moved::state_is_made))]
pub fn state_of(
    alloc: Global,
    turn: u64,
    payment: &Payment,
    outcome: Option<&Outcome>,
) -> Result<State, ByteFault>
    ensures value { IfOk result (λ s.
        s ≡ state_with turn false
        (refusing.moved payment.now.from payment.now.to payment.now.asset payment.now.amount
        (or_nothing (option_copied outcome.entry))) []) }
    ensures large { turn < 2 ^ 48 → OnlyMemory (payment.now.amount
        ≤ amounts.amt (shapes.items_in payment.now.asset
        (or_nothing (option_copied outcome.entry))) payment.now.from) result }
{
    valid_of(outcome);
    let assets = payment.assets(alloc, outcome)?;
    let outcome = Outcome::make(alloc, assets)?;
    State::make(alloc, turn, false, outcome, Vec::new(alloc))
}
