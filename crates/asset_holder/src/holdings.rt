//! Balances of channels and persons.

ghost use Rattle.std.specs.Prelude.{◌≡◌, ◌≤◌, Some, None, OnOk, OnErr, ◌+◌, ◌<◌, ◌^◌, ◌==◌, ℕ, List, if◌then◌else◌};
ghost use Rattle.channel_values.specs.declared.value.Dest.TheVariants.{Channel};
ghost use Rattle.call_history.specs.Replies.{deposit};
ghost use Rattle.indexmap.specs.IndexMap.{spare};
ghost use Rattle.asset_holder.specs.Amounts.{amount_in, total};
ghost use Rattle.asset_holder.specs.Balances.{amount_held, amount_paid, amount_deposited, same_pair, is_of, AreEmpty, AreSame, HasMoved, AreConserved};

use crate::amounts::{amount, set_amount};
use call_history::Refusal;
use channel_values::{Dest, Name, NoMemory};
use indexmap::IndexMap;
use std::alloc::Global;
use std::marker::Model;

/// What each channel holds and each person was paid, of each asset. Contracts name only these amounts.
#[derive(Drop)]
pub struct Holdings {
    held: IndexMap<(Name, u32), u64>,
    paid: IndexMap<(Name, u32), u64>,
    deposited: IndexMap<u32, u64>,
}

impl Model for Holdings {
    ghost use Rattle.asset_holder.specs.Balances.{Balances};
    ghost use Rattle.asset_holder.specs.Tables.{balances, AreBalanced};

    ghost Value = { Balances };

    ghost view = { λ s. balances s.held s.paid s.deposited };

    ghost invariant = { λ s. AreBalanced (balances s.held s.paid s.deposited) };
}

impl Holdings {
    /// Nothing is held, and nobody was paid.
    pub fn make(alloc: Global) -> Holdings
        ensures { AreEmpty result }
    {
        Holdings {
            held: IndexMap::new(alloc),
            paid: IndexMap::new(alloc),
            deposited: IndexMap::new(alloc),
        }
    }

    /// Takes the memory that one call may need.
    pub fn reserve(&mut self) -> Result<(), NoMemory>
        ensures room { OnOk result (1 ≤ self.new.room) }
        ensures same { AreSame self.old self.new }
    {
        self.held.reserve(2)?;
        self.paid.reserve(1)?;
        self.deposited.reserve(1)?;
        Ok(())
    }

    /// Brings funds from outside into a channel: what it holds then, or the first refusal.
    pub fn deposit(
        &mut self,
        channel: Name,
        asset: u32,
        expected: u64,
        amount: u64,
    ) -> Result<u64, Refusal>
        requires { 1 ≤ self.old.room }
        ensures answer { result ≡
            deposit (amount_held self.old channel asset) (amount_deposited self.old asset) expected amount }
        ensures ok { OnOk result (HasMoved self.old
            (record { from = None; to = Channel channel; asset = asset; amount = amount }) self.new) }
        ensures err { OnErr result (self.new ≡ self.old) }
    {
        if amount == 0 {
            return Err(Refusal::Zero);
        }
        let before = self.held(&channel, asset);
        if before < expected {
            return Err(Refusal::Underheld(before));
        }
        let total = self.deposited(asset);
        if amount > u64::MAX - total {
            return Err(Refusal::AssetFull(total));
        }
        set_amount(&mut self.deposited, asset, total + amount);
        set_amount(&mut self.held, (channel, asset), before + amount);
        Ok(before + amount)
    }

    /// A person is paid, or a channel holds more. Where a channel pays itself, no balance changes.
    pub fn move_funds(&mut self, from: Name, to: Dest, asset: u32, amount: u64)
        requires room { 1 ≤ self.old.room }
        requires held { amount ≤ amount_held self.old from asset }
        ensures { HasMoved self.old (record { from = Some from; to = to; asset = asset; amount = amount }) self.new }
    {
        let left = self.held(&from, asset) - amount;
        set_amount(&mut self.held, (from, asset), left);
        match to {
            Dest::Channel(channel) => raise(&mut self.held, channel, asset, amount),
            Dest::Person(person) => raise(&mut self.paid, person, asset, amount),
        }
    }

    /// What a channel holds.
    pub fn held(&self, channel: &Name, asset: u32) -> u64
        ensures { result ≡ amount_held self.now channel.now asset }
    {
        amount(&self.held, &(*channel, asset))
    }

    /// What a person was paid.
    pub fn paid(&self, person: &Name, asset: u32) -> u64
        ensures { result ≡ amount_paid self.now person.now asset }
    {
        amount(&self.paid, &(*person, asset))
    }

    /// What was deposited: all that channels hold and persons were paid.
    pub fn deposited(&self, asset: u32) -> u64
        ensures value { result ≡ amount_deposited self.now asset }
        ensures conserved { AreConserved self.now }
    {
        // That a map's keys are distinct, its length says.
        let _held = self.held.len();
        let _paid = self.paid.len();
        amount(&self.deposited, &asset)
    }
}

/// A name has this much more of an asset.
fn raise(amounts: &mut IndexMap<(Name, u32), u64>, name: Name, asset: u32, more: u64)
    requires room { 1 ≤ spare amounts.old }
    requires fits { amount_in same_pair amounts.old.entries (name, asset) + more < 2 ^ 64 }
    ensures amounts { (k : List ℕ × ℕ) → amount_in same_pair amounts.new.entries k
        ≡ amount_in same_pair amounts.old.entries k + (if same_pair (name, asset) k then more else 0) }
    ensures totals { (a : ℕ) → total (is_of a) amounts.new.entries
        ≡ total (is_of a) amounts.old.entries + (if asset == a then more else 0) }
    ensures room { spare amounts.old ≤ spare amounts.new + 1 }
{
    let amount = amount(amounts, &(name, asset));
    set_amount(amounts, (name, asset), amount + more);
}
