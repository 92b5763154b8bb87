//! A node with its watchers.

ghost use Rattle.std.specs.Prelude.{◌≡◌, ◌≤◌, ◌+◌, ◌<◌, ◌^◌, ◌-◌, [], length, drop, replicate, slice_get, OnOk, IfOk};
ghost use Rattle.network.specs.Ways.{quiet, unlooking};
ghost use Rattle.network.specs.Histories.{IsFresh};
ghost use Rattle.network.specs.Members.{sees, told, handed, acts, looks, accepted, calls_if};

use crate::command::Command;
use crate::lookout::Lookout;
use crate::outs::{NodeFault, Outs, no_outs};
use crate::party::Party;
use call_history::{Call, Entry, Event};
use channel_values::NoMemory;
use lms_signatures::Signer;
use std::alloc::Global;
use std::marker::Model;

/// A node, and its watchers by their places.
#[derive(Drop)]
pub struct Member<P: Party> {
    pub node: P,
    pub watchers: Vec<Lookout>,
}

impl<P: Party> Model for Member<P> {
    ghost use Rattle.network.specs.Members.{MemberOf};

    ghost Value = { MemberOf P };

    ghost view = { λ m. record { node = m.node; watchers = m.watchers.items } };
}

/// The entries after the first so many.
fn after(entries: &[Entry], seen: u32) -> &[Entry]
    ensures rest { result.now ≡ drop seen entries.now }
    ensures fits { length entries.now < 2 ^ 32 → seen + length result.now < 2 ^ 32 }
{
    if (seen as usize) < entries.len() {
        &entries[seen as usize..]
    } else {
        &[]
    }
}

impl<P: Party> Member<P> {
    pub fn node(&self) -> &P
        ensures { result.now ≡ self.now.node }
    {
        &self.node
    }

    /// A new node, which signs with this signer, and with so many watchers.
    pub fn make(
        alloc: Global,
        number: u32,
        signer: Signer,
        watchers: u32,
    ) -> Result<Member<P>, NoMemory>
        requires { IsFresh signer }
        ensures { IfOk result (λ m. m ≡ record { node = P.ways.fresh number signer; watchers = replicate watchers unlooking }) }
    {
        let node = P::make(alloc, number, signer)?;
        let mut lookouts = Vec::new(alloc);
        for place in 0..watchers {
            lookouts.push(Lookout::make(alloc))?;
        }
        Ok(Member {
            node,
            watchers: lookouts,
        })
    }

    pub(crate) fn see(&mut self, history: &[Entry]) -> Result<(), NoMemory>
        requires { length history.now < 2 ^ 32 }
        ensures { OnOk result (self.new ≡ sees P.ways history.now self.old) }
    {
        let seen = self.node.seen();
        self.node.see(after(history, seen))
    }

    /// What the node answers to a command, or nothing where it refuses.
    pub fn command(&mut self, alloc: Global, step: u32, command: Command) -> Result<Outs, NoMemory>
        ensures told { OnOk result (self.new ≡ told P.ways step command self.old) }
        ensures given { IfOk result (λ outs. outs ≡ accepted (P.ways.answers command self.old.node)) }
        ensures few { IfOk result (λ outs. length outs.calls ≤ 32768) }
    {
        match self.node.command(step, command) {
            Ok(outs) => Ok(outs),
            Err(NodeFault::Refused(_)) => Ok(no_outs(alloc)),
            Err(NodeFault::NoMemory) => Err(NoMemory),
        }
    }

    pub(crate) fn handle(&mut self, bytes: &[u8]) -> Result<(), NoMemory>
        ensures { OnOk result (self.new ≡ handed P.ways bytes.now self.old) }
    {
        match self.node.handle(bytes) {
            Ok(()) | Err(NodeFault::Refused(_)) => Ok(()),
            Err(NodeFault::NoMemory) => Err(NoMemory),
        }
    }

    pub(crate) fn tick(&mut self) -> Result<Outs, NoMemory>
        ensures acts { OnOk result (self.new ≡ acts P.ways self.old) }
        ensures given { IfOk result (λ outs. outs ≡ P.ways.gives self.old.node) }
        ensures few { IfOk result (λ outs. length outs.calls ≤ 32768) }
    {
        self.node.tick()
    }

    /// The calls of the look of the watcher at this place, if there is one.
    pub(crate) fn watch(
        &mut self,
        alloc: Global,
        history: &[Entry],
        place: u32,
    ) -> Result<Vec<Call>, NoMemory>
        requires { length history.now < 2 ^ 32 }
        ensures looks { OnOk result (self.new ≡ looks P.ways history.now place self.old) }
        ensures calls { IfOk result (λ calls.
            calls.items ≡ calls_if P.ways history.now self.old (slice_get self.old.watchers place)) }
        ensures few { IfOk result (λ calls. length calls.items ≤ 64) }
    {
        if place as usize >= self.watchers.len() {
            return Ok(Vec::new(alloc));
        }
        let lookout = &mut self.watchers[place as usize];
        let entries = after(history, lookout.seen);
        self.node.watch(lookout, place, entries)
    }
}
