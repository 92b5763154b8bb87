//! The ledger.

ghost use Rattle.std.specs.Prelude.{◌≡◌, ◌<◌, ◌-◌, ◌^◌, [], length, OnOk};
ghost use Rattle.call_history.specs.History.{Legal, newest_first};
ghost use Rattle.support_rules.specs.Real.{real};
ghost use Rattle.network.specs.Entered.{entered, oldest_first};

use adjudicator::Adjudicator;
use call_history::{Entry, Op};
use channel_values::NoMemory;
use network::Docket;
use std::alloc::Global;
use std::marker::Model;

/// An adjudicator, with the history that it stands for. Contracts see the history, the newest entry first; it is legal.
#[derive(Drop)]
pub struct Ledger {
    adjudicator: Adjudicator,
    history: Vec<Entry>,
}

impl Model for Ledger {
    ghost use Rattle.std.specs.Prelude.{List};
    ghost use Rattle.call_history.specs.History.{newest_first};
    ghost use Rattle.call_history.specs.declared.entry.Entry.{Entry};
    ghost use Rattle.sequential_ledger.specs.Ledgers.{IsLedger};

    ghost Value = { List Entry };

    ghost view = { λ l. newest_first l.history.items };

    ghost invariant = { λ l. IsLedger (newest_first l.history.items) l.adjudicator };
}

impl Docket for Ledger {
    ghost history = { λ l. l };

    fn make(alloc: Global) -> Ledger {
        Ledger {
            adjudicator: Adjudicator::make(alloc),
            history: Vec::new(alloc),
        }
    }

    fn enter(&mut self, by: u32, op: Op) -> Result<(), NoMemory> {
        let Ok(()) = self.adjudicator.reserve() else {
            drop(op);
            return Err(NoMemory);
        };
        let Ok(()) = self.history.reserve(1) else {
            drop(op);
            return Err(NoMemory);
        };
        let number = (self.history.len() + 1) as u32;
        let reply = self.adjudicator.apply(&op);
        self.history.push_reserved(Entry {
            number,
            by,
            op,
            reply,
        });
        Ok(())
    }

    fn entries(&self) -> &[Entry] {
        self.history.as_slice()
    }

    fn into_entries(self) -> Vec<Entry> {
        let Ledger {
            adjudicator,
            history,
        } = self;
        drop(adjudicator);
        history
    }
}
