//! What was paid of items.

ghost use Rattle.std.specs.Prelude.{◌≡◌, ◌<◌, ◌≤◌, ◌+◌, ◌^◌, [], ℕ, List, OnOk};
ghost use Rattle.call_history.specs.Flows.{pays};
ghost use Rattle.asset_holder.specs.Payments.{amount_of_item};

use crate::amounts::{amount, set_amount};
use channel_values::{Name, NoMemory};
use indexmap::IndexMap;
use std::alloc::Global;
use std::marker::Model;

/// What was paid of each item of the channels' final outcomes. Contracts name only these amounts.
#[derive(Drop)]
pub struct PaidItems {
    paid: IndexMap<(Name, u32, u8), u64>,
}

impl Model for PaidItems {
    ghost use Rattle.asset_holder.specs.Payments.{Payments};
    ghost use Rattle.indexmap.specs.IndexMap.{spare};

    ghost Value = { Payments };

    ghost view = { λ s. record { rows = s.paid.entries; room = spare s.paid } };
}

impl PaidItems {
    /// Nothing was paid.
    pub fn make(alloc: Global) -> PaidItems
        ensures { result.rows ≡ [] }
    {
        PaidItems {
            paid: IndexMap::new(alloc),
        }
    }

    /// Takes the memory that one payment may need.
    pub fn reserve(&mut self) -> Result<(), NoMemory>
        ensures room { OnOk result (1 ≤ self.new.room) }
        ensures same { self.new.rows ≡ self.old.rows }
    {
        self.paid.reserve(1)?;
        Ok(())
    }

    /// What was paid of the item at a place of a channel's outcome.
    pub fn paid_of(&self, channel: &Name, asset: u32, place: u8) -> u64
        ensures { result ≡ amount_of_item self.now channel.now asset place }
    {
        amount(&self.paid, &(*channel, asset, place))
    }

    /// More was paid of that item, and nothing more of any other.
    pub fn add(&mut self, channel: Name, asset: u32, place: u8, more: u64)
        requires room { 1 ≤ self.old.room }
        requires fits { amount_of_item self.old channel asset place + more < 2 ^ 64 }
        ensures { (c : List ℕ) (a p : ℕ) → amount_of_item self.new c a p ≡ amount_of_item self.old c a p
            + pays c a p (record { channel = channel; asset = asset; place = place; amount = more }) }
    {
        let item = (channel, asset, place);
        let before = amount(&self.paid, &item);
        set_amount(&mut self.paid, item, before + more);
    }
}
