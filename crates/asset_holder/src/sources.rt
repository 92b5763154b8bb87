//! Where what flowed came from.

ghost use Rattle.std.specs.Prelude.{◌≡◌, ◌<◌, ◌+◌, [], take, length, IfOk, OnOk};

use crate::sums::{add, amount_of};
use call_history::Flow;
use channel_values::{Name, NoMemory};
use indexmap::IndexMap;
use std::alloc::Global;

/// What flowed out of each channel, and what was deposited.
#[derive(Drop)]
pub(crate) struct Sources {
    pub spent: IndexMap<(Name, u32), u128>,
    pub deposited: IndexMap<u32, u128>,
}

impl Sources {
    ghost use Rattle.asset_holder.specs.Sums.{AreSources};

    fn make(alloc: Global) -> Sources
        ensures { AreSources [] result.spent.entries result.deposited.entries }
    {
        Sources {
            spent: IndexMap::new(alloc),
            deposited: IndexMap::new(alloc),
        }
    }

    /// Of the flows up to this place, and then of the flow there too.
    fn spend(&mut self, flows: &[Flow], place: usize) -> Result<(), NoMemory>
        requires place { place < length flows.now }
        requires sources { AreSources (take place flows.now) self.old.spent.entries self.old.deposited.entries }
        ensures { OnOk result (AreSources
            (take (place + 1) flows.now) self.new.spent.entries self.new.deposited.entries) }
    {
        let flow = flows[place];
        let amount = amount_of(&flow);
        match flow.from {
            Some(source) => {
                add(&mut self.spent, (source, flow.asset), amount)?;
                Ok(())
            }
            None => {
                add(&mut self.deposited, flow.asset, amount)?;
                Ok(())
            }
        }
    }

    pub(crate) fn of(alloc: Global, flows: &[Flow]) -> Result<Sources, NoMemory>
        ensures { IfOk result (λ s. AreSources flows.now s.spent.entries s.deposited.entries) }
    {
        let mut sources = Sources::make(alloc);
        for place in 0..flows.len() {
            sources.spend(flows, place)?;
        }
        Ok(sources)
    }
}
