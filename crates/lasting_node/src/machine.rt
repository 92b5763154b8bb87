//! The machine of a node.

ghost use Rattle.std.specs.Prelude.{◌≡◌, true, None, IfOk, OnOk};
ghost use Rattle.std.specs.List.{All};
ghost use Rattle.call_history.specs.History.{Legal};
ghost use Rattle.support_rules.specs.Real.{real};
ghost use Rattle.network.specs.Histories.{IsFresh};
ghost use Rattle.node_lines.specs.Texts.{KeepsEffect, effect_text};
ghost use Rattle.std.specs.Prelude.{flat_map};
ghost use Rattle.lasting_node.specs.Machines.{IsForeign, number, refusal, next, after_event, effects_of, counted, unplayed};
ghost use Rattle.lasting_node.specs.Queries.{IsMessage};
ghost use Rattle.lasting_node.specs.Taking.{EndsBy};
ghost use Rattle.node_lines.specs.declared.events.NodeEvent.{NodeEvent as AnEvent};

use crate::in_flight::InFlight;
use crate::keeping::effects_keep;
use crate::stepping::Failure;
use crate::taking::{NotTaken, Untaken, event_in};
use call_history::Entry;
use channel_values::{Listed, NoMemory};
use lasting_lines::{Fault, Machine, Played};
use lms_signatures::Signer;
use network::{Docket, Lookout, Party};
use network_node::Node;
use node_lines::{Effect, NodeEvent, effect_lines, effect_text, error_text};
use sequential_ledger::Ledger;
use std::alloc::{AllocError, Global};

/// A node with its watcher, over the history of the ledger as it was told.
#[derive(Drop)]
pub struct NodeMachine {
    /// The history, with an adjudicator of its own.
    pub ledger: Ledger,
    pub node: Node,
    pub lookout: Lookout,
    /// The calls that the node gave and that nobody entered yet.
    pub waiting: Listed<InFlight>,
    /// How many events it took.
    pub count: u32,
}

/// The number of the only node.
const NUMBER: u32 = 1;

pub(crate) fn lines_of(alloc: Global, number: u32, effects: &[Effect]) -> Result<Vec<u8>, NoMemory>
    ensures { IfOk result (λ text. text.items ≡ flat_map (effect_text number) effects.now) }
{
    // What a node calls keeps the limits of its format.
    if effects_keep(effects) {
        effect_lines(alloc, number, effects)
    } else {
        Err(NoMemory)
    }
}

impl NodeMachine {
    /// A node that took no event, before the first record of its file, with a signer that signed nothing.
    pub fn unplayed(alloc: Global, signer: Signer) -> Result<Played<NodeMachine>, NoMemory>
        requires { IsFresh signer }
        ensures { IfOk result (λ played. played ≡ unplayed signer) }
    {
        let node = Node::make(alloc, NUMBER, signer)?;
        Ok(Played {
            machine: NodeMachine {
                ledger: Ledger::make(alloc),
                node,
                lookout: Lookout::make(alloc),
                waiting: Listed::make(Vec::new(alloc)),
                count: 0,
            },
            count: 0,
            mark: [0; 32],
        })
    }

    /// The entries in the order of time.
    pub fn entries(&self) -> &[Entry]
        ensures legal { Legal real self.now.ledger }
    {
        self.ledger.entries()
    }

    // The number of the next event.
    fn number(&self) -> Result<u32, NoMemory>
        ensures { IfOk result (λ n. n ≡ number self.now) }
    {
        if self.count < u32::MAX {
            Ok(self.count + 1)
        } else {
            Err(NoMemory)
        }
    }

    /// What is written of a line that isn't taken: an error, why the node refuses a message, or the answer to a query.
    pub fn message(&self, alloc: Global, why: NotTaken) -> Result<Vec<u8>, NoMemory>
        ensures { IfOk result (λ text. IsMessage self.now why text.items) }
    {
        match why {
            NotTaken::Wrong(why) => error_text(alloc, why),
            NotTaken::Refuses(refusal) => {
                let number = self.number()?;
                lines_of(alloc, number, &[Effect::Refused(refusal)])
            }
            NotTaken::Asks(query) => self.reply_to(alloc, query),
        }
    }

    // Takes an event, with its number.
    fn take(&mut self, alloc: Global, event: NodeEvent) -> Result<Vec<u8>, Failure>
        requires { refusal self.old event ≡ None }
        ensures gives { IfOk result (λ text.
            text.items ≡ flat_map (effect_text (number self.old)) (effects_of event self.old)) }
        ensures steps { OnOk result (self.new ≡ counted (after_event event self.old)) }
        ensures ends { EndsBy (IsForeign self.old event) result }
    {
        let number = self.number()?;
        let effects = self.on_event(alloc, event)?;
        self.count = number;
        Ok(lines_of(alloc, number, &effects)?)
    }
}

impl Machine for NodeMachine {
    ghost use Rattle.lasting_node.specs.Machines.{line_ways, Foreign};
    ghost use Rattle.lasting_node.specs.Queries.{Says};

    ghost ways = { line_ways };

    ghost says = { Says };

    ghost foreign = { Foreign };

    #[tactic(auto, using(crate::proofs::Messages::says))]
    fn refusal(&self, alloc: Global, line: &[u8]) -> Result<Option<Vec<u8>>, AllocError> {
        match self.taken(alloc, line) {
            Ok(event) => {
                drop(event);
                Ok(None)
            }
            Err(Untaken::NoMemory) => Err(AllocError),
            Err(Untaken::Not(why)) => match self.message(alloc, why) {
                Ok(text) => Ok(Some(text)),
                Err(_) => Err(AllocError),
            },
        }
    }

    /// `Foreign` where the reply of an entry isn't the own adjudicator's.
    #[tactic(auto, using(crate::proofs::Endings::foreign, crate::proofs::Endings::own))]
    fn step(&mut self, alloc: Global, line: &[u8]) -> Result<Vec<u8>, Fault> {
        let event = match event_in(alloc, line) {
            Ok(event) => event,
            Err(Untaken::NoMemory) => return Err(Fault::NoMemory),
            Err(Untaken::Not(_)) => unreachable!(),
        };
        match self.take(alloc, event) {
            Ok(text) => Ok(text),
            Err(Failure::NoMemory) => Err(Fault::NoMemory),
            Err(Failure::Foreign) => Err(Fault::Foreign),
        }
    }
}
