//! What was received, and by whom.

ghost use Rattle.std.specs.Prelude.{◌≡◌, ◌++◌, ◌∷◌, ◌<◌, ◌+◌, [], take, length, nat_eq, IfOk, OnOk, if◌then◌else◌};
ghost use Rattle.asset_holder.specs.Sums.{same_key, has};

use crate::sums::{add, amount_of};
use call_history::Flow;
use channel_values::{Dest, Name, NoMemory};
use indexmap::IndexMap;
use std::alloc::Global;

/// What was received: who received it, in the order of first receipt, the sums by channel and by person, and what all
/// persons were paid.
#[derive(Drop)]
pub(crate) struct Receipts {
    pub pairs: Vec<(Dest, u32)>,
    pub channels: IndexMap<(Name, u32), u128>,
    pub persons: IndexMap<(Name, u32), u128>,
    pub paid: IndexMap<u32, u128>,
}

fn is_known(sums: &IndexMap<(Name, u32), u128>, key: &(Name, u32)) -> bool
    ensures { result ≡ has same_key sums.now.entries key.now }
{
    sums.get(key).is_some()
}

fn note(pairs: &mut Vec<(Dest, u32)>, is_known: bool, to: Dest, asset: u32) -> Result<(), NoMemory>
    ensures { OnOk result (pairs.new.items
        ≡ (if is_known then pairs.old.items else pairs.old.items ++ (to, asset) ∷ [])) }
{
    if is_known {
        return Ok(());
    }
    pairs.push((to, asset))?;
    Ok(())
}

impl Receipts {
    ghost use Rattle.asset_holder.specs.Sums.{AreReceipts};

    fn make(alloc: Global) -> Receipts
        ensures { AreReceipts [] result.pairs.items result.channels.entries result.persons.entries result.paid.entries }
    {
        Receipts {
            pairs: Vec::new(alloc),
            channels: IndexMap::new(alloc),
            persons: IndexMap::new(alloc),
            paid: IndexMap::new(alloc),
        }
    }

    /// Of the flows up to this place, and then of the flow there too.
    fn receive(&mut self, flows: &[Flow], place: usize) -> Result<(), NoMemory>
        requires place { place < length flows.now }
        requires receipts { AreReceipts (take place flows.now)
            self.old.pairs.items self.old.channels.entries self.old.persons.entries self.old.paid.entries }
        ensures { OnOk result (AreReceipts (take (place + 1) flows.now)
            self.new.pairs.items self.new.channels.entries self.new.persons.entries self.new.paid.entries) }
    {
        let flow = flows[place];
        let amount = amount_of(&flow);
        match flow.to {
            Dest::Channel(channel) => {
                let key = (channel, flow.asset);
                let is_known = is_known(&self.channels, &key);
                note(&mut self.pairs, is_known, flow.to, flow.asset)?;
                add(&mut self.channels, key, amount)?;
                Ok(())
            }
            Dest::Person(person) => {
                let key = (person, flow.asset);
                let is_known = is_known(&self.persons, &key);
                note(&mut self.pairs, is_known, flow.to, flow.asset)?;
                add(&mut self.persons, key, amount)?;
                add(&mut self.paid, flow.asset, amount)?;
                Ok(())
            }
        }
    }

    pub(crate) fn of(alloc: Global, flows: &[Flow]) -> Result<Receipts, NoMemory>
        ensures { IfOk result (λ r. AreReceipts flows.now r.pairs.items r.channels.entries r.persons.entries r.paid.entries) }
    {
        let mut receipts = Receipts::make(alloc);
        for place in 0..flows.len() {
            receipts.receive(flows, place)?;
        }
        Ok(receipts)
    }
}
