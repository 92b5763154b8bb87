//! Flows, and their balances.

ghost use Rattle.std.specs.Prelude.{◌≡◌, IfOk};
ghost use Rattle.call_history.specs.Flows.{held_in, paid_in, deposited_in, held_by_all, paid_to_all, AreWithinAmounts};
ghost use Rattle.asset_holder.specs.Receipts.{assets_of, receivers_of};

use crate::assets::assets_of;
use crate::receipts::Receipts;
use crate::sources::Sources;
use crate::sums::sum;
use call_history::Flow;
use channel_values::{Dest, Name, NoMemory};
use std::alloc::Global;
use std::collections::BTreeSet;
use std::marker::Model;

/// Flows with tables of what they sum up to. Contracts see the flows.
#[derive(Drop)]
pub struct Balances {
    flows: Vec<Flow>,
    receipts: Receipts,
    sources: Sources,
    assets: BTreeSet<u32>,
}

impl Model for Balances {
    ghost use Rattle.std.specs.Prelude.{List};
    ghost use Rattle.call_history.specs.declared.funds.Flow.{Flow};
    ghost use Rattle.asset_holder.specs.Sums.{IsIndexed};

    ghost Value = { List Flow };

    ghost view = { λ b. b.flows.items };

    ghost invariant = { λ b. IsIndexed b.flows.items b.receipts.pairs.items b.receipts.channels.entries
        b.receipts.persons.entries b.receipts.paid.entries b.sources.spent.entries b.sources.deposited.entries b.assets.keys };
}

impl Balances {
    /// Takes the flows, in the order of time.
    pub fn of(alloc: Global, flows: Vec<Flow>) -> Result<Balances, NoMemory>
        ensures { IfOk result (λ balances. balances ≡ flows.items) }
    {
        let receipts = Receipts::of(alloc, &flows)?;
        let sources = Sources::of(alloc, &flows)?;
        let assets = assets_of(alloc, &flows)?;
        Ok(Balances {
            flows,
            receipts,
            sources,
            assets,
        })
    }

    /// The assets, rising.
    pub fn assets(&self) -> &BTreeSet<u32>
        ensures { result.now.keys ≡ assets_of self.now }
    {
        &self.assets
    }

    /// The assets in a list of their own, rising.
    pub fn listed_assets(&self, alloc: Global) -> Result<Vec<u32>, NoMemory>
        ensures { IfOk result (λ assets. assets.items ≡ assets_of self.now) }
    {
        let mut assets = Vec::new(alloc);
        for asset in self.assets().iter() {
            assets.push(*asset)?;
        }
        Ok(assets)
    }

    /// Who received something, with its asset, in the order of first receipt.
    pub fn receivers(&self) -> &[(Dest, u32)]
        ensures { result.now ≡ receivers_of self.now }
    {
        self.receipts.pairs.as_slice()
    }

    /// What a channel holds of an asset.
    pub fn held(&self, channel: &Name, asset: u32) -> u64
        requires { AreWithinAmounts self.now }
        ensures { result ≡ held_in self.now channel.now asset }
    {
        let key = (*channel, asset);
        let received = sum(&self.receipts.channels, &key);
        (received - sum(&self.sources.spent, &key)) as u64
    }

    /// What a person was paid of an asset.
    pub fn paid(&self, person: &Name, asset: u32) -> u64
        requires { AreWithinAmounts self.now }
        ensures { result ≡ paid_in self.now person.now asset }
    {
        sum(&self.receipts.persons, &(*person, asset)) as u64
    }

    /// What was deposited of an asset.
    pub fn deposited(&self, asset: u32) -> u64
        requires { AreWithinAmounts self.now }
        ensures { result ≡ deposited_in self.now asset }
    {
        sum(&self.sources.deposited, &asset) as u64
    }

    /// What all persons were paid of an asset.
    pub fn paid_to_all(&self, asset: u32) -> u64
        requires { AreWithinAmounts self.now }
        ensures { result ≡ paid_to_all self.now asset }
    {
        sum(&self.receipts.paid, &asset) as u64
    }

    /// What all channels hold of an asset.
    #[tactic(auto, using(call_history::proofs::Conservation::held_is_left))]
    pub fn held_by_all(&self, asset: u32) -> u64
        requires { AreWithinAmounts self.now }
        ensures { result ≡ held_by_all self.now asset }
    {
        self.deposited(asset) - self.paid_to_all(asset)
    }
}
