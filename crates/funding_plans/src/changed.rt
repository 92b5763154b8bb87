//! The outcome of a ledger with a child more or less, which is compared before it is built.

ghost use Rattle.std.specs.Prelude.{◌≡◌, ◌≤◌, ◌++◌, ◌∷◌, [], length, IfOk, filter, map, not, if◌then◌else◌};
ghost use Rattle.std.specs.Option.{option_copied};
ghost use Rattle.std.specs.Str.{bytes_eq};
ghost use Rattle.channel_values.specs.declared.value.Item.{Item};
ghost use Rattle.channel_values.specs.declared.value.Shape.TheVariants.{Allocation};
ghost use Rattle.channel_values.specs.declared.value.Dest.TheVariants.{Channel};
ghost use Rattle.channel_values.specs.Spelling.{outcome};
ghost use Rattle.funding_plans.specs.Outcomes as outcomes;
ghost use Rattle.funding_plans.specs.Behind as spells;
ghost use Rattle.funding_plans.specs.Limits.{if_valid};

use crate::amounts::{has, items_in};
use crate::child::Child;
use crate::pieces::{behind, behind_asset, behind_item, byte_of, is_end};
use crate::valid::{outcome_of, valid_copy};
use channel_values::{AssetOutcome, Dest, Item, Listed, NoMemory, Outcome, Shape};
use std::alloc::Global;
use std::marker::Model;

/// The outcome that a ledger has after it went up or down. Contracts see that outcome.
#[derive(Drop)]
pub struct Changed<'a> {
    pub child: Child,
    pub base: &'a Outcome,
    pub is_up: bool,
}

impl<'a> Model for Changed<'a> {
    ghost use Rattle.std.specs.Prelude.{List};
    ghost use Rattle.channel_values.specs.declared.value.AssetOutcome.{AssetOutcome};
    ghost use Rattle.funding_plans.specs.Outcomes.{moved};

    ghost Value = { List AssetOutcome };

    ghost view = { λ t. moved t.is_up t.child t.base.now };
}

impl Child {
    fn is_item_of(&self, item: &Item) -> bool
        ensures { result ≡ outcomes.is_item_of self.now item.now }
    {
        item.to.is(&Dest::Channel(self.name))
    }

    /// Whether the outcome names the child.
    pub fn is_in(&self, ends: &Outcome) -> bool
        ensures { result ≡ outcomes.names self.now ends.now }
    {
        has(items_in(ends, self.asset), &Dest::Channel(self.name))
    }

    fn part_of(&self, to: &Dest) -> u64
        ensures { result ≡ outcomes.part_of self.now to.now }
    {
        if to.is(&Dest::Person(self.first)) {
            self.a
        } else if to.is(&Dest::Person(self.second)) {
            self.b
        } else {
            0
        }
    }

    fn lowered(&self, item: &Item) -> Item
        ensures { result ≡ outcomes.lowered self.now item.now }
    {
        Item {
            to: item.to,
            amount: item.amount.saturating_sub(self.part_of(&item.to)),
        }
    }

    fn raised(&self, item: &Item) -> Item
        ensures { result ≡ outcomes.raised self.now item.now }
    {
        Item {
            to: item.to,
            amount: item.amount.saturating_add(self.part_of(&item.to)),
        }
    }

    fn own_item(&self) -> Item
        ensures { result ≡ record { to = Channel self.now.name; amount = outcomes.plus self.now.a self.now.b } }
    {
        Item {
            to: Dest::Channel(self.name),
            amount: self.a.saturating_add(self.b),
        }
    }

    fn behind_up<'b>(&self, bytes: &'b [u8], items: &[Item]) -> Option<&'b [u8]>
        ensures { option_copied result ≡ spells.behind_items (outcomes.items_up self.now items.now) bytes.now }
    {
        match items {
            [] => behind_item(bytes, &self.own_item()),
            [item, others @ ..] => {
                let rest = behind_item(bytes, &self.lowered(item))?;
                self.behind_up(rest, others)
            }
        }
    }

    fn behind_down<'b>(&self, bytes: &'b [u8], items: &[Item]) -> Option<&'b [u8]>
        ensures { option_copied result ≡ spells.behind_items (outcomes.items_down self.now items.now) bytes.now }
    {
        match items {
            [] => Some(bytes),
            [item, others @ ..] => {
                if self.is_item_of(item) {
                    return self.behind_down(bytes, others);
                }
                let rest = behind_item(bytes, &self.raised(item))?;
                self.behind_down(rest, others)
            }
        }
    }
}

impl Child {
    fn behind_own_up<'b>(&self, bytes: &'b [u8], items: &[Item]) -> Option<&'b [u8]>
        ensures { option_copied result
            ≡ spells.behind_shape (Allocation (outcomes.items_up self.now items.now)) bytes.now }
    {
        let rest = behind(bytes, &[1, byte_of(items.len() + 1)])?;
        self.behind_up(rest, items)
    }

    fn left(&self, items: &[Item]) -> usize
        ensures bound { result ≤ length items.now }
        ensures exact { result ≡ length (outcomes.items_down self.now items.now) }
    {
        match items {
            [] => 0,
            [item, others @ ..] => {
                if self.is_item_of(item) {
                    self.left(others)
                } else {
                    self.left(others) + 1
                }
            }
        }
    }

    fn behind_own_down<'b>(&self, bytes: &'b [u8], items: &[Item]) -> Option<&'b [u8]>
        ensures { option_copied result
            ≡ spells.behind_shape (Allocation (outcomes.items_down self.now items.now)) bytes.now }
    {
        let rest = behind(bytes, &[1, byte_of(self.left(items))])?;
        self.behind_down(rest, items)
    }

    #[tactic(auto, unfolding(crate::specs::Behind::behind_asset))]
    fn behind_own<'b>(&self, is_up: bool, bytes: &'b [u8], items: &[Item]) -> Option<&'b [u8]>
        ensures { option_copied result
            ≡ spells.behind_asset (record {
              asset = self.now.asset;
              shape = Allocation
                  (outcomes.changed_items is_up self.now items.now);
            }) bytes.now }
    {
        let rest = behind(bytes, &self.asset.to_be_bytes())?;
        if is_up {
            self.behind_own_up(rest, items)
        } else {
            self.behind_own_down(rest, items)
        }
    }

    /// After an asset that has the changed items, where it is the child's.
    fn behind_changed<'b>(
        &self,
        is_up: bool,
        bytes: &'b [u8],
        items: &[Item],
        o: &AssetOutcome,
    ) -> Option<&'b [u8]>
        ensures { option_copied result
            ≡ spells.behind_asset (outcomes.with_items_at self.now.asset
            (outcomes.changed_items is_up self.now items.now) o.now) bytes.now }
    {
        if o.asset == self.asset {
            self.behind_own(is_up, bytes, items)
        } else {
            behind_asset(bytes, o)
        }
    }

    fn behind_all<'b>(
        &self,
        is_up: bool,
        bytes: &'b [u8],
        items: &[Item],
        assets: &[AssetOutcome],
    ) -> Option<&'b [u8]>
        ensures { option_copied result
            ≡ spells.behind_assets (outcomes.with_items self.now.asset
            (outcomes.changed_items is_up self.now items.now) assets.now) bytes.now }
    {
        match assets {
            [] => Some(bytes),
            [o, others @ ..] => {
                let rest = self.behind_changed(is_up, bytes, items, o)?;
                self.behind_all(is_up, rest, items, others)
            }
        }
    }
}

impl Child {
    #[tactic(auto, using(crate::proofs::Spells::length_changed))]
    fn behind_outcome<'b>(&self, is_up: bool, bytes: &'b [u8], base: &Outcome) -> Option<&'b [u8]>
        ensures { option_copied result ≡ spells.behind_outcome (outcomes.changed is_up self.now base.now) bytes.now }
    {
        let assets = base.assets();
        let items = items_in(base, self.asset);
        let rest = behind(bytes, &[byte_of(assets.len())])?;
        self.behind_all(is_up, rest, items, assets)
    }

    #[tactic(auto, using(crate::proofs::Spells::outcome_ends))]
    /// Whether the bytes spell the changed outcome.
    fn is_changed(&self, is_up: bool, bytes: &[u8], base: &Outcome) -> bool
        ensures { result ≡ bytes_eq bytes.now (outcome (outcomes.changed is_up self.now base.now)) }
    {
        is_end(self.behind_outcome(is_up, bytes, base))
    }

    /// Whether the bytes spell the outcome that a ledger has after it went up or down.
    fn is_moved(&self, is_up: bool, bytes: &[u8], base: &Outcome) -> bool
        ensures { result ≡ bytes_eq bytes.now (outcome (outcomes.moved is_up self.now base.now)) }
    {
        if self.is_in(base) == is_up {
            bytes == base.bytes()
        } else {
            self.is_changed(is_up, bytes, base)
        }
    }
}

impl Child {
    fn items_up(&self, alloc: Global, items: &[Item]) -> Result<Vec<Item>, NoMemory>
        ensures { IfOk result (λ v. v.items ≡ outcomes.items_up self.now items.now) }
    {
        let mut changed = Vec::new(alloc);
        for item in items {
            changed.push(self.lowered(item))?;
        }
        changed.push(self.own_item())?;
        Ok(changed)
    }

    fn items_down(&self, alloc: Global, items: &[Item]) -> Result<Vec<Item>, NoMemory>
        ensures { IfOk result (λ v. v.items ≡ outcomes.items_down self.now items.now) }
    {
        let mut changed = Vec::new(alloc);
        for item in items {
            if !self.is_item_of(item) {
                changed.push(self.raised(item))?;
            }
        }
        Ok(changed)
    }

    fn items_changed(
        &self,
        alloc: Global,
        is_up: bool,
        items: &[Item],
    ) -> Result<Vec<Item>, NoMemory>
        ensures { IfOk result (λ v. v.items ≡ outcomes.changed_items is_up self.now items.now) }
    {
        if is_up {
            self.items_up(alloc, items)
        } else {
            self.items_down(alloc, items)
        }
    }

    fn asset_changed(
        &self,
        alloc: Global,
        is_up: bool,
        items: &[Item],
        o: &AssetOutcome,
    ) -> Result<AssetOutcome, NoMemory>
        ensures { IfOk result (λ x. x ≡ outcomes.with_items_at self.now.asset
            (outcomes.changed_items is_up self.now items.now) o.now) }
    {
        if o.asset == self.asset {
            let items = self.items_changed(alloc, is_up, items)?;
            Ok(AssetOutcome {
                asset: self.asset,
                shape: Shape::Allocation(Listed::make(items)),
            })
        } else {
            o.copy()
        }
    }

    fn outcome_changed(
        &self,
        alloc: Global,
        is_up: bool,
        base: &Outcome,
    ) -> Result<Option<Outcome>, NoMemory>
        ensures { IfOk result (λ o. o ≡ if_valid (outcomes.changed is_up self.now base.now)) }
    {
        let items = items_in(base, self.asset);
        let mut assets = Vec::new(alloc);
        for o in base.assets() {
            let asset = self.asset_changed(alloc, is_up, items, o)?;
            assets.push(asset)?;
        }
        outcome_of(alloc, assets)
    }
}

impl<'a> Changed<'a> {
    /// The outcome, where it is valid.
    pub(crate) fn make(&self, alloc: Global) -> Result<Option<Outcome>, NoMemory>
        ensures { IfOk result (λ o. o ≡ if_valid self.now) }
    {
        if self.child.is_in(self.base) == self.is_up {
            valid_copy(self.base)
        } else {
            self.child.outcome_changed(alloc, self.is_up, self.base)
        }
    }

    /// Whether the bytes spell it.
    pub fn is_spelled(&self, bytes: &[u8]) -> bool
        ensures { result ≡ bytes_eq bytes.now (outcome self.now) }
    {
        self.child.is_moved(self.is_up, bytes, self.base)
    }
}
