//! Which lines a machine takes.

ghost use Rattle.std.specs.Prelude.{◌≡◌, ◌==◌, ◌+◌, length, option_map, IfOk};
ghost use Rattle.node_guarantees.specs.Ways.{ways};
ghost use Rattle.lasting_node.specs.declared.taking.NotTaken.TheVariants.{Refuses};
ghost use Rattle.lasting_node.specs.Machines.{why_of, event_in, unless, has_room, reason, refusal, taken};
ghost use Rattle.lasting_node.specs.Taking.{Takes};
ghost use Rattle.lasting_node.specs.declared.taking.Untaken.TheVariants.{NoMemory as NoMemoryLeft};
ghost use Rattle.node_lines.specs.Lines.{line_of};

use crate::in_flight::is_waiting;
use crate::machine::NodeMachine;
use crate::reserves::has_reserve;
use call_history::NodeRefusal;
use channel_values::NoMemory;
use network::Docket;
use node_lines::{Invalid, Line, LineError, NodeEvent, Query, Why, read_line};
use std::alloc::Global;

/// Why a line isn't taken as an event.
#[derive(Clone, Copy)]
pub enum NotTaken {
    /// It is no event, or none that can come now.
    Wrong(Why),
    /// The node refuses the message.
    Refuses(NodeRefusal),
    /// It is a query, which is answered at once.
    Asks(Query),
}

/// Why no event was taken.
#[derive(Clone, Copy)]
pub enum Untaken {
    NoMemory,
    Not(NotTaken),
}

impl From<NoMemory> for Untaken {
    ghost from_gives = { λ _ e. e ≡ NoMemoryLeft };

    fn from(_: NoMemory) -> Untaken {
        Untaken::NoMemory
    }
}

fn why_of(fault: Invalid) -> Why
    ensures { result ≡ why_of fault }
{
    match fault {
        Invalid::Json => Why::Json,
        Invalid::Shape => Why::Shape,
        Invalid::Limit => Why::Limit,
        Invalid::Bytes => Why::Bytes,
    }
}

/// The event that a line is.
pub(crate) fn event_in(alloc: Global, line: &[u8]) -> Result<NodeEvent, Untaken>
    ensures { Takes result (event_in (line_of line.now)) }
{
    match read_line(alloc, line) {
        Ok(Line::Event(event)) => Ok(event),
        Ok(Line::Query(query)) => Err(Untaken::Not(NotTaken::Asks(query))),
        Err(LineError::NoMemory) => Err(Untaken::NoMemory),
        Err(LineError::Invalid(fault)) => Err(Untaken::Not(NotTaken::Wrong(why_of(fault)))),
    }
}

fn unless(holds: bool, why: Why) -> Option<NotTaken>
    ensures { result ≡ unless holds why }
{
    if holds {
        None
    } else {
        Some(NotTaken::Wrong(why))
    }
}

impl NodeMachine {
    #[tactic(auto, using(crate::proofs::Histories::entry_count))]
    fn has_room(&self) -> bool
        ensures { result ≡ has_room self.now }
    {
        self.count < u32::MAX && self.ledger.entries().len() < u32::MAX as usize
    }

    // Whether the number of an entry comes next.
    #[tactic(auto, using(crate::proofs::Histories::entry_count))]
    fn is_next(&self, number: u32) -> bool
        ensures { result ≡ (number == length self.now.ledger + 1) }
    {
        number as usize == self.ledger.entries().len() + 1
    }

    // Why the node refuses a message, if it does.
    fn refuses(&self, bytes: &[u8]) -> Result<Option<NotTaken>, NoMemory>
        ensures { IfOk result (λ o. o ≡ option_map Refuses (ways.refuses bytes.now self.now.node)) }
    {
        match self.node.refusal_of(bytes)? {
            None => Ok(None),
            Some(refusal) => Ok(Some(NotTaken::Refuses(refusal))),
        }
    }

    fn reason(&self, event: &NodeEvent) -> Result<Option<NotTaken>, NoMemory>
        ensures { IfOk result (λ o. o ≡ reason self.now event.now) }
    {
        match event {
            NodeEvent::Entry(entry) => Ok(unless(self.is_next(entry.number), Why::Number)),
            NodeEvent::Message(bytes) => self.refuses(bytes.as_slice()),
            NodeEvent::Command(command) => {
                Ok(unless(has_reserve(&self.node, command), Why::Reserve))
            }
            NodeEvent::Tick => Ok(unless(self.waiting.as_slice().is_empty(), Why::Waits)),
            NodeEvent::Dropped(call) => {
                Ok(unless(is_waiting(self.waiting.as_slice(), *call), Why::Unknown))
            }
        }
    }

    fn refusal_of(&self, event: &NodeEvent) -> Result<Option<NotTaken>, NoMemory>
        ensures { IfOk result (λ o. o ≡ refusal self.now event.now) }
    {
        if self.has_room() {
            self.reason(event)
        } else {
            Ok(Some(NotTaken::Wrong(Why::Full)))
        }
    }

    /// The event that a line is, if the machine takes it, or the first reason why not.
    pub(crate) fn taken(&self, alloc: Global, line: &[u8]) -> Result<NodeEvent, Untaken>
        ensures { Takes result (taken self.now line.now) }
    {
        let event = event_in(alloc, line)?;
        match self.refusal_of(&event) {
            Ok(None) => Ok(event),
            Ok(Some(why)) => {
                drop(event);
                Err(Untaken::Not(why))
            }
            Err(NoMemory) => {
                drop(event);
                Err(Untaken::NoMemory)
            }
        }
    }
}
