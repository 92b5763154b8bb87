//! The world, one happening after another.

ghost use Rattle.std.specs.Prelude.{◌≡◌, ◌==◌, ◌≤◌, ◌<◌, ◌-◌, ◌^◌, true, length, IfOk, IfSome, OnOk, OnErr, IsErr, slice_get};
ghost use Rattle.std.specs.List.{position};
ghost use Rattle.std.specs.Option.{option_map};
ghost use Rattle.call_history.specs.History.{Legal, newest_first};
ghost use Rattle.call_history.specs.declared.call.Op.TheVariants as ops;
ghost use Rattle.support_rules.specs.Real.{real};
ghost use Rattle.network.specs.Ways.{quiet};
ghost use Rattle.network.specs.Histories.{IsFresh};
ghost use Rattle.network.specs.Entered.{entered, oldest_first};
ghost use Rattle.network.specs.Worlds.{WorldOf, new_world, member, happened, given, most_calls, joined, journal};
ghost use Rattle.network.specs.declared.happening.Happening.TheVariants as happenings;

use crate::command::Command;
use crate::docket::Docket;
use crate::happening::Happening;
use crate::member::Member;
use crate::outs::{Outs, no_outs};
use crate::party::Party;
use call_history::{Call, Entry, Event, Op};
use channel_values::{Listed, NoMemory};
use lms_signatures::Signer;
use std::alloc::Global;
use std::marker::Model;

/// One history, and the nodes with their watchers. Once memory ran out it answers nothing else.
#[derive(Drop)]
pub struct World<P: Party, D: Docket> {
    alloc: Global,
    docket: D,
    members: Vec<Member<P>>,
    is_lost: bool,
}

impl<P: Party, D: Docket> Model for World<P, D> {
    ghost use Rattle.network.specs.Worlds.{WorldOf};

    ghost Value = { WorldOf P };

    ghost view = { λ w. record { history = D.history w.docket; members = w.members.items; is_lost = w.is_lost } };
}

impl<P: Party, D: Docket> World<P, D> {
    pub fn make(alloc: Global) -> World<P, D>
        ensures { result ≡ new_world }
    {
        World {
            alloc,
            docket: D::make(alloc),
            members: Vec::new(alloc),
            is_lost: false,
        }
    }

    /// The entries in the order of time.
    pub fn history(&self) -> &[Entry]
        ensures { result.now ≡ oldest_first self.now.history }
    {
        self.docket.entries()
    }

    /// The entries in the order of time and the nodes with their watchers, after which nothing happens.
    pub fn into_parts(self) -> (Vec<Entry>, Vec<Member<P>>)
        ensures same { newest_first result.0.items ≡ self.history }
        ensures members { result.1.items ≡ self.members }
        ensures legal { Legal real self.history }
    {
        (self.docket.into_entries(), self.members)
    }

    /// The nodes with their watchers, in the order in which they joined.
    pub fn members(&self) -> &[Member<P>]
        ensures { result.now ≡ self.now.members }
    {
        self.members.as_slice()
    }

    /// The journal of the node of this number, or nothing.
    #[tactic(auto, using(crate::proofs::Places::nobody_tells, crate::proofs::Places::tells_there))]
    pub fn journal(&self, number: u32) -> &[Event]
        ensures { result.now ≡ journal P.ways self.now number }
    {
        match self.place_of(number) {
            Some(place) => self.members[place].node().journal(),
            None => &[],
        }
    }

    fn place_of(&self, number: u32) -> Option<usize>
        ensures place { result ≡ position (λ m. P.ways.number m.node == number) self.now.members }
        ensures inside { IfSome result (λ place. place < length self.now.members) }
    {
        self.members
            .iter()
            .position(|m| m.node().number() == number)
    }

    /// A new node joins, which signs with this signer, and with so many watchers.
    pub fn join(&mut self, number: u32, signer: Signer, watchers: u32) -> Result<(), NoMemory>
        requires { IsFresh signer }
        ensures { OnOk result (self.new ≡ joined P.ways number signer watchers self.old) }
    {
        let member = Member::make(self.alloc, number, signer, watchers)?;
        self.members.push(member)?;
        Ok(())
    }

    fn enter(&mut self, by: u32, op: Op) -> Result<(), NoMemory>
        requires { length self.old.history < 2 ^ 32 - 1 }
        ensures { OnOk result (self.new ≡ record self.old { history = entered self.old.history by op }) }
    {
        self.docket.enter(by, op)
    }

    #[tactic(auto, using(crate::proofs::Places::nobody_changes, crate::proofs::Places::changes_there))]
    fn see(&mut self, number: u32) -> Result<(), NoMemory>
        ensures { OnOk result (self.new ≡ happened P.ways (happenings.See number) self.old) }
    {
        let Some(place) = self.place_of(number) else {
            return Ok(());
        };
        let member = &mut self.members[place];
        member.see(self.docket.entries())
    }

    #[tactic(auto, using(crate::proofs::Places::nobody_changes, crate::proofs::Places::changes_there, crate::proofs::Places::nobody_gives, crate::proofs::Places::gives_there))]
    fn command(&mut self, number: u32, step: u32, command: Command) -> Result<Outs, NoMemory>
        ensures made { OnOk result (self.new ≡ happened P.ways (happenings.Command number step command) self.old) }
        ensures given { IfOk result (λ outs. outs ≡ given P.ways (happenings.Command number step command) self.old) }
        ensures few { IfOk result (λ outs. length outs.calls ≤ 32768) }
    {
        let alloc = self.alloc;
        let Some(place) = self.place_of(number) else {
            return Ok(no_outs(alloc));
        };
        let member = &mut self.members[place];
        member.command(alloc, step, command)
    }

    #[tactic(auto, using(crate::proofs::Places::nobody_changes, crate::proofs::Places::changes_there))]
    fn deliver(&mut self, number: u32, bytes: &[u8]) -> Result<(), NoMemory>
        ensures { OnOk result (self.new ≡ happened P.ways (happenings.Deliver number bytes.now) self.old) }
    {
        let Some(place) = self.place_of(number) else {
            return Ok(());
        };
        let member = &mut self.members[place];
        member.handle(bytes)
    }

    #[tactic(auto, using(crate::proofs::Places::nobody_changes, crate::proofs::Places::changes_there, crate::proofs::Places::nobody_gives, crate::proofs::Places::gives_there))]
    fn tick(&mut self, number: u32) -> Result<Outs, NoMemory>
        ensures made { OnOk result (self.new ≡ happened P.ways (happenings.Tick number) self.old) }
        ensures given { IfOk result (λ outs. outs ≡ given P.ways (happenings.Tick number) self.old) }
        ensures few { IfOk result (λ outs. length outs.calls ≤ 32768) }
    {
        let Some(place) = self.place_of(number) else {
            return Ok(no_outs(self.alloc));
        };
        let member = &mut self.members[place];
        member.tick()
    }

    #[tactic(auto, using(crate::proofs::Places::nobody_changes, crate::proofs::Places::changes_there, crate::proofs::Places::nobody_gives, crate::proofs::Places::gives_there))]
    fn watch(&mut self, number: u32, watcher: u32) -> Result<Outs, NoMemory>
        ensures made { OnOk result (self.new ≡ happened P.ways (happenings.Watch number watcher) self.old) }
        ensures given { IfOk result (λ outs. outs ≡ given P.ways (happenings.Watch number watcher) self.old) }
        ensures few { IfOk result (λ outs. length outs.calls ≤ 64) }
    {
        let alloc = self.alloc;
        let Some(place) = self.place_of(number) else {
            return Ok(no_outs(alloc));
        };
        let member = &mut self.members[place];
        let calls = member.watch(alloc, self.docket.entries(), watcher)?;
        let mut outs = no_outs(alloc);
        outs.calls = Listed::make(calls);
        Ok(outs)
    }

    fn step(&mut self, event: Happening) -> Result<Outs, NoMemory>
        requires { length self.old.history < 2 ^ 32 - 1 }
        ensures made { OnOk result (self.new ≡ happened P.ways event self.old) }
        ensures given { IfOk result (λ outs. outs ≡ given P.ways event self.old) }
        ensures few { IfOk result (λ outs. length outs.calls ≤ most_calls event) }
    {
        let alloc = self.alloc;
        match event {
            Happening::Enter(by, call) => self.enter(by, Op::Call(call))?,
            Happening::Time(to) => self.enter(0, Op::Time(to))?,
            Happening::See(number) => self.see(number)?,
            Happening::Command(number, step, command) => {
                return self.command(number, step, command);
            }
            Happening::Deliver(number, bytes) => self.deliver(number, bytes.as_slice())?,
            Happening::Tick(number) => return self.tick(number),
            Happening::Watch(number, place) => return self.watch(number, place),
        }
        Ok(no_outs(alloc))
    }
}

/// Makes exactly this happening, and answers what is given at it.
pub fn world_step<P: Party, D: Docket>(
    world: &mut World<P, D>,
    event: Happening,
) -> Result<Outs, NoMemory>
    requires { length world.old.history < 2 ^ 32 - 1 }
    ensures made { OnOk result (world.new ≡ happened P.ways event world.old) }
    ensures given { IfOk result (λ outs. outs ≡ given P.ways event world.old) }
    ensures few { IfOk result (λ outs. length outs.calls ≤ most_calls event) }
    ensures lost { OnErr result (world.new.is_lost ≡ true) }
    ensures stays_lost { world.old.is_lost ≡ true → IsErr result }
{
    if world.is_lost {
        drop(event);
        return Err(NoMemory);
    }
    match world.step(event) {
        Ok(outs) => Ok(outs),
        Err(NoMemory) => {
            world.is_lost = true;
            Err(NoMemory)
        }
    }
}
