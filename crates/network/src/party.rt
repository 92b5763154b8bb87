//! A node, as the core of the network calls it.

ghost use Rattle.std.specs.Prelude.{◌≡◌, ◌≢◌, ◌≤◌, ◌+◌, ◌<◌, ◌^◌, ◌∷◌, ℕ, List, Bool, true, length, IfOk, OnOk, OnErr, IfErr, IsErr, Ok, Err};
ghost use Rattle.call_history.specs.History.{Legal};
ghost use Rattle.call_history.specs.declared.entry.Entry.{Entry as AnEntry};
ghost use Rattle.channel_safety.specs.Honest.{Honest};
ghost use Rattle.channel_safety.specs.Valid.{IsValidEntry};
ghost use Rattle.std.specs.List.{AllByRecursion};
ghost use Rattle.support_rules.specs.Real.{real};
ghost use Rattle.network.specs.Ways.{Ways, followed, looked};
ghost use Rattle.network.specs.Histories.{IsFresh, RefusesAs, ComeNext, HasLooked};
ghost use Rattle.network.specs.declared.outs.NodeFault.{NodeFault as AFault};
ghost use Rattle.network.specs.declared.outs.NodeFault.TheVariants as faults;

use crate::command::Command;
use crate::lookout::Lookout;
use crate::outs::{NodeFault, Outs};
use call_history::{Call, Entry, Event};
use channel_values::{Key, NoMemory};
use lms_signatures::Signer;
use std::alloc::Global;

/// A node: it follows the history, is given commands, handles messages, acts at each tick, and its watchers look.
/// Once memory ran out it answers nothing else, and stays as it is.
pub trait Party: Drop {
    // What each call makes of it and answers, as functions of its value.
    ghost ways: { Ways Self };

    // It has followed a front of the history.
    ghost stands: { List AnEntry → Self → Type 0 };

    // Whether memory failed it.
    ghost lost: { Self → Bool };

    /// A node with a number, which signs with this signer.
    fn make(alloc: Global, number: u32, signer: Signer) -> Result<Self, NoMemory>
        requires { IsFresh signer }
        ensures fresh { IfOk result (λ p. p ≡ ways.fresh number signer) }
        ensures stands { (past : List AnEntry) → IfOk result (λ p. stands past p) };

    fn number(&self) -> u32
        ensures { result ≡ ways.number self.now };

    fn key(&self) -> &Key
        ensures { result.now ≡ ways.key self.now };

    fn journal(&self) -> &[Event]
        ensures { result.now ≡ ways.journal self.now };

    /// How many entries it has followed.
    fn seen(&self) -> u32
        ensures { result ≡ ways.seen self.now };

    fn is_lost(&self) -> bool
        ensures { result ≡ lost self.now };

    fn see(&mut self, entries: &[Entry]) -> Result<(), NoMemory>
        requires { ways.seen self.old + length entries.now < 2 ^ 32 }
        ensures saw { OnOk result (self.new ≡ ways.saw entries.now self.old) }
        ensures loses { OnErr result (lost self.new ≡ true) }
        ensures stays_lost { lost self.old ≡ true → IsErr result × (self.new ≡ self.old) }
        ensures keeps { (h : List AnEntry) → Legal real h → ComeNext h entries.now (ways.seen self.old)
            → stands h self.old → stands h self.new };

    fn command(&mut self, step: u32, command: Command) -> Result<Outs, NodeFault>
        ensures commanded { result ≢ Err faults.NoMemory → self.new ≡ ways.commanded step command self.old }
        ensures gives { result ≢ Err faults.NoMemory → result ≡ ways.answers command self.old }
        ensures loses { result ≡ Err faults.NoMemory → lost self.new ≡ true }
        ensures stays_lost { lost self.old ≡ true → (result ≡ Err faults.NoMemory) × (self.new ≡ self.old) }
        ensures few { IfOk result (λ outs. length outs.calls ≤ 32768) }
        ensures keeps { (h : List AnEntry) → Legal real h → stands h self.old → stands h self.new };

    fn handle(&mut self, bytes: &[u8]) -> Result<(), NodeFault>
        ensures handled { result ≢ Err faults.NoMemory → self.new ≡ ways.handled bytes.now self.old }
        ensures refuses { RefusesAs (ways.refuses bytes.now self.old) result }
        ensures loses { result ≡ Err faults.NoMemory → lost self.new ≡ true }
        ensures stays_lost { lost self.old ≡ true → (result ≡ Err faults.NoMemory) × (self.new ≡ self.old) }
        ensures keeps { (h : List AnEntry) → Legal real h → stands h self.old → stands h self.new };

    /// It gives at most 16384 calls.
    fn tick(&mut self) -> Result<Outs, NoMemory>
        ensures ticked { OnOk result (self.new ≡ ways.ticked self.old) }
        ensures gives { IfOk result (λ outs. outs ≡ ways.gives self.old) }
        ensures loses { OnErr result (lost self.new ≡ true) }
        ensures stays_lost { lost self.old ≡ true → IsErr result × (self.new ≡ self.old) }
        ensures few { IfOk result (λ outs. length outs.calls ≤ 16384) }
        ensures keeps { (h : List AnEntry) → Legal real h → stands h self.old → stands h self.new };

    /// The checkpoints of a watcher's look, at most 64.
    fn watch(
        &mut self,
        lookout: &mut Lookout,
        place: u32,
        entries: &[Entry],
    ) -> Result<Vec<Call>, NoMemory>
        requires { lookout.old.seen + length entries.now < 2 ^ 32 }
        ensures followed { OnOk result (lookout.new ≡ followed entries.now lookout.old) }
        ensures calls { IfOk result (λ calls. calls.items ≡ looked (ways.chains self.old) lookout.new) }
        ensures few { IfOk result (λ calls. length calls.items ≤ 64) }
        ensures watched { IfOk result (λ calls. self.new ≡ ways.watched lookout.new.seen place calls.items self.old) }
        ensures loses { OnErr result (lost self.new ≡ true) }
        ensures stays_lost { lost self.old ≡ true → IsErr result × (self.new ≡ self.old) }
        ensures keeps { (h : List AnEntry) → Legal real h
            → HasLooked real h (ways.seen self.old) lookout.old entries.now → stands h self.old → stands h self.new };

    // What it stands for grows with the history; and over a history of values its journal is honest.
    ghost grows: { (h : List AnEntry) (e : AnEntry) (p : Self) → Legal real (e ∷ h) → stands h p → stands (e ∷ h) p };

    ghost honest: { (h : List AnEntry) (p : Self) → Legal real h → AllByRecursion IsValidEntry h → stands h p → Honest real (ways.key p) h (ways.lines p) };

    ghost within: { (h : List AnEntry) (p : Self) → stands h p → ways.seen p ≤ length h };
}
