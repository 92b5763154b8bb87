//! What each event makes of a machine, and what is said of it.

ghost use Rattle.std.specs.Prelude.{◌≡◌, ◌≢◌, ◌≤◌, ◌<◌, ◌+◌, ◌-◌, ◌^◌, ◌∷◌, ◌++◌, List, length, drop, true, None, Err, IfOk, OnOk};
ghost use Rattle.call_history.specs.History.{reply_to};
ghost use Rattle.call_history.specs.declared.entry.Entry.{Entry as AnEntry};
ghost use Rattle.network.specs.Entered.{entered, oldest_first};
ghost use Rattle.node_guarantees.specs.Ways.{ways};
ghost use Rattle.support_rules.specs.Real.{real};
ghost use Rattle.lasting_node.specs.Effects.{calls, sends, spent, of_entry, of_message, of_command, of_time};
ghost use Rattle.lasting_node.specs.InFlight.{not_entered as still_flying};
ghost use Rattle.node_lines.specs.declared.events.NodeEvent.TheVariants as events;
ghost use Rattle.lasting_node.specs.Machines.{IsForeign, refusal, has_room, flying, entering, seeing, look, new_calls, watched, looking, after_entry, after_message, command_calls, after_command, ticking, look_place, after_tick, after_dropped, after_event, time_of, entry_effects, tick_effects, effects_of, next, answer};
ghost use Rattle.lasting_node.specs.Taking.{EndsBy};
ghost use Rattle.lasting_node.specs.declared.stepping.Failure.TheVariants as failures;

use crate::effects::{add_calls, add_entry, add_message, add_sends, add_spent, add_time};
use crate::in_flight::{add_numbered, not_dropped, not_entered, not_in_flight};
use crate::machine::NodeMachine;
use call_bytes::same_reply;
use call_history::{Call, Entry, Op, Reply};
use channel_values::NoMemory;
use network::{Command, Docket, NodeFault, Outs, Party};
use node_lines::{CallNumber, Effect, LedgerEntry, NodeEvent};
use std::alloc::Global;

/// Why an event can't be taken.
#[derive(Clone, Copy, Debug, PartialEq, Eq)]
pub(crate) enum Failure {
    NoMemory,
    /// The reply of an entry isn't the own adjudicator's.
    Foreign,
}

impl From<NoMemory> for Failure {
    ghost from_gives = { λ _ e. e ≡ failures.NoMemory };

    fn from(_: NoMemory) -> Failure {
        Failure::NoMemory
    }
}

// The entries after the first so many.
fn after(entries: &[Entry], seen: u32) -> &[Entry]
    ensures rest { result.now ≡ drop seen entries.now }
    ensures fits { length entries.now < 2 ^ 32 → seen + length result.now < 2 ^ 32 }
{
    if (seen as usize) < entries.len() {
        &entries[seen as usize..]
    } else {
        &[]
    }
}

impl NodeMachine {
    // Calls of the event are in flight now, with the first at this place.
    fn give(
        &mut self,
        effects: &mut Vec<Effect>,
        place: u32,
        given: &[Call],
    ) -> Result<(), NoMemory>
        requires room { self.old.count + 1 < 2 ^ 32 }
        requires few { place + length given.now < 2 ^ 32 }
        ensures next { OnOk result (self.new ≡ flying place given.now self.old) }
        ensures effects { OnOk result (effects.new.items ≡ effects.old.items ++ calls place given.now) }
    {
        let number = self.count + 1;
        add_numbered(&mut self.waiting, number, place, given)?;
        add_calls(effects, place, given)
    }

    // The op of an entry is entered with the own adjudicator's reply, and its call is in flight no more.
    fn enter_op(&mut self, by: u32, op: Op) -> Result<(), NoMemory>
        requires room { length self.old.ledger < 2 ^ 32 - 1 }
        ensures next { OnOk result (self.new ≡ record self.old {
          ledger = entered self.old.ledger by op;
          waiting = still_flying op self.old.waiting;
        }) }
    {
        let Ok(left) = not_entered(&self.waiting, &op) else {
            drop(op);
            return Err(NoMemory);
        };
        self.waiting = left;
        self.ledger.enter(by, op)
    }

    // Whether the newest entry has this reply.
    fn has_replied(&self, alloc: Global, reply: &Reply) -> Result<(), Failure>
        ensures { (e : AnEntry) (past : List AnEntry) → self.now.ledger ≡ e ∷ past
            → EndsBy (e.reply ≢ reply.now) result }
    {
        match self.ledger.entries().last() {
            None => Ok(()),
            Some(entry) => {
                if same_reply(alloc, &entry.reply, reply)? {
                    Ok(())
                } else {
                    Err(Failure::Foreign)
                }
            }
        }
    }

    // Where the own adjudicator's reply isn't the entry's, the entry is `Foreign`.
    fn enter(&mut self, alloc: Global, entry: LedgerEntry) -> Result<(), Failure>
        requires room { length self.old.ledger < 2 ^ 32 - 1 }
        ensures next { OnOk result (self.new ≡ entering entry self.old) }
        ensures ends { EndsBy (reply_to real self.old.ledger entry.op ≢ entry.reply) result }
    {
        let LedgerEntry { by, op, reply, .. } = entry;
        self.enter_op(by, op)?;
        self.has_replied(alloc, &reply)
    }

    // The node follows the entries that it hasn't followed.
    fn see(&mut self) -> Result<(), NoMemory>
        ensures { OnOk result (self.new ≡ seeing self.old) }
    {
        let seen = self.node.seen();
        let entries = after(self.ledger.entries(), seen);
        self.node.see(entries)
    }

    // The watcher follows them too, and looks.
    fn watch(&mut self) -> Result<Vec<Call>, NoMemory>
        ensures next { OnOk result (self.new ≡ watched self.old) }
        ensures calls { IfOk result (λ calls. calls.items ≡ look self.old) }
        ensures few { IfOk result (λ calls. length calls.items ≤ 64) }
    {
        let entries = after(self.ledger.entries(), self.lookout.seen);
        self.node.watch(&mut self.lookout, 0, entries)
    }

    // It gives its calls that aren't in flight yet.
    fn look(&mut self, effects: &mut Vec<Effect>, place: u32) -> Result<(), NoMemory>
        requires room { self.old.count + 1 < 2 ^ 32 }
        requires few { place ≤ 16384 }
        ensures next { OnOk result (self.new ≡ looking place self.old) }
        ensures effects { OnOk result (effects.new.items ≡ effects.old.items ++ calls place (new_calls self.old)) }
    {
        let calls = self.watch()?;
        let alloc = *calls.allocator();
        let more = not_in_flight(alloc, self.waiting.as_slice(), &calls)?;
        self.give(effects, place, &more)
    }

    // The time, as far as the node followed.
    fn time(&self) -> u64
        ensures { result ≡ time_of self.now }
    {
        self.node.view().now
    }

    // What the newest entry says. The time is that before it.
    fn tell_newest(&self, effects: &mut Vec<Effect>, before: u64) -> Result<(), NoMemory>
        ensures { (e : AnEntry) (past : List AnEntry) → self.now.ledger ≡ e ∷ past
            → OnOk result (effects.new.items ≡ effects.old.items ++ of_entry before self.now.node e.op e.reply) }
    {
        match self.ledger.entries().last() {
            None => Ok(()),
            Some(entry) => add_entry(effects, before, &self.node, entry),
        }
    }

    fn on_entry(&mut self, alloc: Global, entry: LedgerEntry) -> Result<Vec<Effect>, Failure>
        requires { has_room self.old ≡ true }
        ensures next { OnOk result (self.new ≡ after_entry entry self.old) }
        ensures effects { IfOk result (λ all. all.items ≡ entry_effects entry self.old) }
        ensures ends { EndsBy (reply_to real self.old.ledger entry.op ≢ entry.reply) result }
    {
        let before = self.time();
        self.enter(alloc, entry)?;
        self.see()?;
        let mut all = Vec::new(alloc);
        self.tell_newest(&mut all, before)?;
        self.look(&mut all, 0)?;
        add_time(&mut all, &self.node)?;
        Ok(all)
    }

    fn on_message(&mut self, alloc: Global, bytes: &[u8]) -> Result<Vec<Effect>, NoMemory>
        requires { ways.refuses bytes.now self.old.node ≡ None }
        ensures next { OnOk result (self.new ≡ after_message bytes.now self.old) }
        ensures effects { IfOk result (λ all. all.items ≡ of_message self.old.node bytes.now) }
    {
        let mut all = Vec::new(alloc);
        add_message(alloc, &mut all, &self.node, bytes)?;
        match self.node.handle(bytes) {
            Ok(()) => Ok(all),
            Err(_) => {
                drop(all);
                Err(NoMemory)
            }
        }
    }

    // What the node gives.
    fn pass_on(&mut self, effects: &mut Vec<Effect>, outs: &Outs) -> Result<(), NoMemory>
        requires room { self.old.count + 1 < 2 ^ 32 }
        requires few { length outs.now.calls ≤ 32768 }
        ensures next { OnOk result (self.new ≡ flying 0 outs.now.calls self.old) }
        ensures effects { OnOk result (effects.new.items
            ≡ (effects.old.items ++ sends outs.now.sends) ++ calls 0 outs.now.calls) }
    {
        add_sends(effects, outs.sends.as_slice())?;
        self.give(effects, 0, outs.calls.as_slice())
    }

    fn after_command(&mut self, alloc: Global, outs: &Outs) -> Result<Vec<Effect>, NoMemory>
        requires room { self.old.count + 1 < 2 ^ 32 }
        requires few { length outs.now.calls ≤ 32768 }
        ensures next { OnOk result (self.new ≡ flying 0 outs.now.calls self.old) }
        ensures effects { IfOk result (λ all. all.items
            ≡ sends outs.now.sends ++ (calls 0 outs.now.calls ++ spent outs.now.spent)) }
    {
        let mut all = Vec::new(alloc);
        self.pass_on(&mut all, outs)?;
        add_spent(&mut all, outs.spent)?;
        Ok(all)
    }

    fn on_command(&mut self, alloc: Global, command: Command) -> Result<Vec<Effect>, NoMemory>
        requires { has_room self.old ≡ true }
        ensures next { OnOk result (self.new ≡ after_command command self.old) }
        ensures effects { IfOk result (λ all. all.items ≡ of_command (ways.answers command self.old.node)) }
    {
        let number = self.count + 1;
        match self.node.command(number, command) {
            Ok(outs) => {
                let all = self.after_command(alloc, &outs);
                drop(outs);
                all
            }
            Err(NodeFault::Refused(refusal)) => {
                let mut all = Vec::new(alloc);
                all.push(Effect::Refused(refusal))?;
                Ok(all)
            }
            Err(NodeFault::NoMemory) => Err(NoMemory),
        }
    }

    // The node acted; the watcher's calls come after its own.
    fn after_tick(&mut self, alloc: Global, outs: &Outs) -> Result<Vec<Effect>, NoMemory>
        requires room { self.old.count + 1 < 2 ^ 32 }
        requires few { length outs.now.calls ≤ 16384 }
        ensures next { OnOk result (self.new ≡ looking (length outs.now.calls) (flying 0 outs.now.calls self.old)) }
        ensures effects { IfOk result (λ all. all.items ≡ sends outs.now.sends ++ (calls 0 outs.now.calls
            ++ (calls (length outs.now.calls) (new_calls (flying 0 outs.now.calls self.old))
            ++ (spent outs.now.spent ++ of_time self.new.node)))) }
    {
        let mut all = Vec::new(alloc);
        self.pass_on(&mut all, outs)?;
        self.look(&mut all, outs.calls.as_slice().len() as u32)?;
        add_spent(&mut all, outs.spent)?;
        add_time(&mut all, &self.node)?;
        Ok(all)
    }

    fn on_tick(&mut self, alloc: Global) -> Result<Vec<Effect>, NoMemory>
        requires { has_room self.old ≡ true }
        ensures next { OnOk result (self.new ≡ after_tick self.old) }
        ensures effects { IfOk result (λ all. all.items ≡ tick_effects self.old) }
    {
        let outs = self.node.tick()?;
        let all = self.after_tick(alloc, &outs);
        drop(outs);
        all
    }

    fn on_dropped(&mut self, alloc: Global, call: CallNumber) -> Result<Vec<Effect>, NoMemory>
        ensures next { OnOk result (self.new ≡ after_dropped call self.old) }
        ensures effects { IfOk result (λ all. all.items ≡ effects_of (events.Dropped call) self.old) }
    {
        let left = not_dropped(&self.waiting, call)?;
        self.waiting = left;
        Ok(Vec::new(alloc))
    }

    /// Takes an event, all but its number. `Foreign` where the reply of an entry isn't the own adjudicator's.
    pub(crate) fn on_event(
        &mut self,
        alloc: Global,
        event: NodeEvent,
    ) -> Result<Vec<Effect>, Failure>
        requires { refusal self.old event ≡ None }
        ensures next { OnOk result (self.new ≡ after_event event self.old) }
        ensures effects { IfOk result (λ all. all.items ≡ effects_of event self.old) }
        ensures ends { EndsBy (IsForeign self.old event) result }
    {
        match event {
            NodeEvent::Entry(entry) => self.on_entry(alloc, entry),
            NodeEvent::Message(bytes) => Ok(self.on_message(alloc, bytes.as_slice())?),
            NodeEvent::Command(command) => Ok(self.on_command(alloc, command)?),
            NodeEvent::Tick => Ok(self.on_tick(alloc)?),
            NodeEvent::Dropped(call) => Ok(self.on_dropped(alloc, call)?),
        }
    }
}
