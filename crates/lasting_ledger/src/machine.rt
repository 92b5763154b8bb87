//! The ledger as a machine.

ghost use Rattle.std.specs.Prelude.{◌≡◌, ◌≢◌, [], IfOk};
ghost use Rattle.call_history.specs.History.{Legal, IsConserved};
ghost use Rattle.support_rules.specs.Real.{real};
ghost use Rattle.lasting_ledger.specs.Events.{Gives};
ghost use Rattle.lasting_ledger.specs.Ledgers.{taken, unplayed};

use crate::answers::{error_text, newest_answer, op_bytes};
use crate::events::{Event, EventError, Invalid, read_event};
use call_history::{Entry, every_legal_history_conserves};
use lasting_lines::{Fault, Machine, Played};
use network::Docket;
use sequential_ledger::Ledger;
use std::alloc::{AllocError, Global};

/// A ledger that answers lines.
#[derive(Drop)]
pub struct LedgerMachine {
    pub ledger: Ledger,
}

impl LedgerMachine {
    /// A ledger with no entry, before the first record of its file.
    pub fn unplayed(alloc: Global) -> Played<LedgerMachine>
        ensures { result ≡ unplayed }
    {
        let ledger = Ledger::make(alloc);
        Played {
            machine: LedgerMachine { ledger },
            count: 0,
            mark: [0; 32],
        }
    }

    /// The entries in the order of time.
    pub fn entries(&self) -> &[Entry]
        ensures legal { Legal real self.now.ledger }
        ensures conserved { IsConserved self.now.ledger }
    {
        every_legal_history_conserves();
        self.ledger.entries()
    }

    // The event that a line is, if there is room for its entry.
    fn taken(&self, alloc: Global, line: &[u8]) -> Result<Event, EventError>
        ensures { Gives (λ event. event) result (taken self.now.ledger line.now) }
    {
        let event = read_event(alloc, line)?;
        if self.ledger.entries().len() < u32::MAX as usize {
            Ok(event)
        } else {
            drop(event);
            Err(EventError::Invalid(Invalid::Full))
        }
    }
}

impl Machine for LedgerMachine {
    ghost use Rattle.lasting_ledger.specs.Ledgers.{line_ways, Says, Foreign};

    ghost ways = { line_ways };

    ghost says = { Says };

    ghost foreign = { Foreign };

    #[tactic(auto, using(crate::proofs::Messages::says))]
    fn refusal(&self, alloc: Global, line: &[u8]) -> Result<Option<Vec<u8>>, AllocError> {
        match self.taken(alloc, line) {
            Ok(event) => {
                drop(event);
                Ok(None)
            }
            Err(EventError::NoMemory) => Err(AllocError),
            Err(EventError::Invalid(fault)) => match error_text(alloc, fault) {
                Ok(text) => Ok(Some(text)),
                Err(_) => Err(AllocError),
            },
        }
    }

    fn step(&mut self, alloc: Global, line: &[u8]) -> Result<Vec<u8>, Fault> {
        let event = match read_event(alloc, line) {
            Ok(event) => event,
            Err(EventError::NoMemory) => return Err(Fault::NoMemory),
            Err(EventError::Invalid(_)) => unreachable!(),
        };
        let Ok(op) = op_bytes(alloc, &event.op) else {
            drop(event);
            return Err(Fault::NoMemory);
        };
        let Ok(()) = self.ledger.enter(event.by, event.op) else {
            return Err(Fault::NoMemory);
        };
        match newest_answer(alloc, self.ledger.entries(), &op) {
            Ok(text) => Ok(text),
            Err(_) => Err(Fault::NoMemory),
        }
    }
}
