//! What a race has come to, and what is done in it.

ghost use Rattle.std.specs.Prelude.{◌≡◌, ◌≤◌, ◌+◌, ◌++◌, ◌∷◌, [], true, not, length, fold, filter, OnOk, IfOk};
ghost use Rattle.std.specs.Str.{bytes_eq};
ghost use Rattle.call_history.specs.History.{newest_first};
ghost use Rattle.channel_safety.specs.Journals.{In};
ghost use Rattle.network.specs.Histories.{IsFresh};
ghost use Rattle.network.specs.Members.{MemberOf};
ghost use Rattle.network.specs.Worlds.{happened, joined, journal};
ghost use Rattle.network_rounds.specs.Views.{players};
ghost use Rattle.script_steps.specs.Conditions.{signer_of, runs_in_race};
ghost use Rattle.script_steps.specs.Bounds.{Fits, persons};
ghost use Rattle.step_meanings.specs.Meanings.{meaning};
ghost use Rattle.step_meanings.specs.declared.effect.Effect.TheVariants as effects;
ghost use Rattle.script_play.specs.Play as plays;
ghost use Rattle.script_play.specs.Play.{caught, naming, entering, at_end};
ghost use Rattle.script_race.specs.Races.{starting, FitsRace, RunsRound, RunsRounds, Does, DoesAs};
ghost use Rattle.script_race.specs.Driving.{race_of, IsSeated, KeepRaces, Racing, Turns};

use crate::driver::{command, enter, journal, see, see_all};
use adjudicator::Adjudicator;
use call_history::{Entry, Op};
use channel_values::{Key, Label, Listed, Name, NoMemory, Signed};
use lms_signatures::Signer;
use network::{Command, Member, Party, copy_command};
use network_rounds::{Cast, Clear, Crew, RoundFault, race_round};
use script_play::{caught, without};
use script_steps::Step;
use shared_object::{Book, Seat};
use std::alloc::Global;
use std::sync::Wait;
use std::thread::Threads;
use step_meanings::{Effect, Names, meet};

/// What names stand for, the shared adjudicator with the driver's seat, and the time. It has the nodes, the cast and
/// the messages on their way, and how long the history was after each round.
#[derive(Drop)]
pub struct Race<P: Party> {
    names: Names,
    book: Book<Adjudicator>,
    seat: Seat<Adjudicator>,
    crew: Crew<P>,
    rounds: Listed<u32>,
    now: u64,
}

/// Names the state of a channel, if one was caught.
fn name_caught(
    names: &mut Names,
    name: Label,
    key: Key,
    channel: Name,
    found: Option<Signed>,
) -> Result<(), NoMemory>
    ensures { OnOk result (names.new ≡ naming names.old name key channel found) }
{
    match found {
        Some(signed) => names.name_state(name, key, channel, signed),
        None => Ok(()),
    }
}

impl<P: Party + Send> Race<P> {
    /// Nothing is declared, and nothing happened.
    pub fn make(alloc: Global, cast: Vec<Cast>) -> Result<Race<P>, RoundFault>
        ensures seated { IfOk result (λ r. IsSeated r) }
        ensures starts { IfOk result (λ r. race_of tells told r ≡ starting (players tells told cast.items)) }
    {
        let Ok((book, seat)) = Book::make(alloc, Adjudicator::make(alloc)) else {
            return Err(RoundFault::NoMemory);
        };
        Ok(Race {
            names: Names::make(alloc),
            book,
            seat,
            crew: Crew {
                nodes: Vec::new(alloc),
                cast,
                post: Vec::new(alloc),
            },
            rounds: Listed::make(Vec::new(alloc)),
            now: 0,
        })
    }

    /// A round, and then the time of now + 1.
    fn round<R: Threads + Wait + Sync>(&mut self, rt: &R) -> Result<(), RoundFault>
        requires seated { IsSeated self.old }
        requires racing { Racing tells told P.ways P.stands P.lost self.old }
        requires keep { KeepRaces P.ways P.stands P.lost }
        ensures ran { OnOk result (RunsRound P.ways (race_of tells told self.old) (race_of tells told self.new)) }
        ensures seated { OnOk result (IsSeated self.new) }
    {
        let alloc = self.names.alloc();
        race_round(
            rt,
            alloc,
            &self.book,
            &mut self.seat,
            &mut self.crew,
            &Clear,
        )?;
        let now = self.now + 1;
        let number = enter(rt, alloc, &self.book, &mut self.seat, Op::Time(now))?;
        self.now = now;
        self.rounds.push(number - 1)?;
        Ok(())
    }

    fn play_rounds<R: Threads + Wait + Sync>(
        &mut self,
        rt: &R,
        count: u64,
    ) -> Result<(), RoundFault>
        requires seated { IsSeated self.old }
        requires racing { Racing tells told P.ways P.stands P.lost self.old }
        requires keep { KeepRaces P.ways P.stands P.lost }
        ensures ran { OnOk result
            (RunsRounds P.ways count (race_of tells told self.old) (race_of tells told self.new)) }
        ensures seated { OnOk result (IsSeated self.new) }
    {
        for round in 0..count {
            self.round(rt)?;
        }
        Ok(())
    }

    /// A node sees what the driver has seen, and is given the command of a step.
    fn tell<R: Wait>(
        &mut self,
        rt: &R,
        step: u32,
        number: &u32,
        order: &Command,
    ) -> Result<(), RoundFault>
        requires seated { IsSeated self.old }
        requires followed { (m : MemberOf P) → In m self.old.crew.nodes.items → P.ways.seen m.node
            ≤ length self.old.seat.seen }
        ensures turns { OnOk result
            (Turns tells told (λ s. plays.told P.ways step order.now s number.now) self.old self.new) }
        ensures seated { OnOk result (IsSeated self.new) }
    {
        let number = *number;
        let alloc = self.names.alloc();
        see(
            rt,
            alloc,
            &self.book,
            &mut self.seat,
            &mut self.crew.nodes,
            number,
        )?;
        let outs = command(
            alloc,
            &mut self.crew.nodes,
            number,
            step,
            copy_command(order)?,
        )?;
        self.crew.post.append(&mut outs.sends.into_vec())?;
        Ok(())
    }

    fn tell_all<R: Wait>(
        &mut self,
        rt: &R,
        step: u32,
        numbers: &[u32],
        order: &Command,
    ) -> Result<(), RoundFault>
        requires seated { IsSeated self.old }
        requires racing { Racing tells told P.ways P.stands P.lost self.old }
        requires keep { KeepRaces P.ways P.stands P.lost }
        ensures turns { OnOk result
            (Turns tells told (λ s. fold (plays.told P.ways step order.now) s numbers.now) self.old self.new) }
        ensures seated { OnOk result (IsSeated self.new) }
    {
        for number in numbers {
            self.tell(rt, step, number, order)?;
        }
        Ok(())
    }

    /// Names the state that a node signed of a channel at a turn, if it did.
    fn catch(
        &mut self,
        name: Label,
        number: u32,
        key: Key,
        channel: Name,
        turn: u64,
    ) -> Result<(), RoundFault>
        requires seated { IsSeated self.old }
        ensures turns { OnOk result (Turns tells told
            (λ s. record s {
              names = naming s.names name key channel (caught channel turn (journal P.ways s.world number));
            }) self.old self.new) }
        ensures seated { OnOk result (IsSeated self.new) }
    {
        let found = caught(journal(&self.crew.nodes, number), &channel, turn)?;
        name_caught(&mut self.names, name, key, channel, found)?;
        Ok(())
    }

    fn join(&mut self, number: u32, signer: Signer, watchers: u32) -> Result<(), RoundFault>
        requires fresh { IsFresh signer }
        requires seated { IsSeated self.old }
        ensures turns { OnOk result (Turns tells told
            (λ s. record s { world = joined P.ways number signer watchers s.world }) self.old self.new) }
        ensures seated { OnOk result (IsSeated self.new) }
    {
        let member = Member::make(self.names.alloc(), number, signer, watchers)?;
        self.crew.nodes.push(member)?;
        Ok(())
    }

    fn enter<R: Threads + Wait + Sync>(&mut self, rt: &R, op: Op) -> Result<(), RoundFault>
        requires fits { FitsRace (effects.Enter op) }
        requires seated { IsSeated self.old }
        ensures turns { OnOk result
            (Turns tells told (λ s. record s { world = happened P.ways (entering op) s.world }) self.old self.new) }
        ensures seated { OnOk result (IsSeated self.new) }
    {
        enter(rt, self.names.alloc(), &self.book, &mut self.seat, op)?;
        Ok(())
    }

    fn do_effect<R: Threads + Wait + Sync>(
        &mut self,
        rt: &R,
        step: u32,
        effect: Effect,
    ) -> Result<(), RoundFault>
        requires seated { IsSeated self.old }
        requires racing { Racing tells told P.ways P.stands P.lost self.old }
        requires keep { KeepRaces P.ways P.stands P.lost }
        requires fits { FitsRace effect }
        ensures does { OnOk result
            (Does P.ways step effect (race_of tells told self.old) (race_of tells told self.new)) }
        ensures seated { OnOk result (IsSeated self.new) }
    {
        match effect {
            Effect::Nothing => Ok(()),
            Effect::Enter(op) => self.enter(rt, op),
            Effect::Join(number, signer, watchers) => self.join(number, signer, watchers),
            Effect::Tell(numbers, order) => self.tell_all(rt, step, numbers.as_slice(), &order),
            Effect::Post(to, bytes) => self.send(to, bytes),
            Effect::Lose(to) => self.lose(&to),
            Effect::Catch(name, number, key, channel, turn) => self.catch(
                name, number, key, channel, turn,
            ),
            Effect::Rounds(count) => self.play_rounds(rt, count),
        }
    }

    fn send(&mut self, to: Name, bytes: Listed<u8>) -> Result<(), RoundFault>
        requires seated { IsSeated self.old }
        ensures turns { OnOk result
            (Turns tells told (λ s. record s { post = s.post ++ (to, bytes) ∷ [] }) self.old self.new) }
        ensures seated { OnOk result (IsSeated self.new) }
    {
        self.crew.post.push((to, bytes))?;
        Ok(())
    }

    /// The messages on their way to a person are lost.
    fn lose(&mut self, to: &Name) -> Result<(), RoundFault>
        requires seated { IsSeated self.old }
        ensures turns { OnOk result (Turns tells told
            (λ s. record s { post = filter (λ letter. not (bytes_eq letter.0 to.now)) s.post }) self.old self.new) }
        ensures seated { OnOk result (IsSeated self.new) }
    {
        self.crew.post = without(self.names.alloc(), self.crew.post.as_slice(), to)?;
        Ok(())
    }

    /// Each node sees what the driver has seen.
    pub(crate) fn see_all<R: Wait>(&mut self, rt: &R) -> Result<(), RoundFault>
        requires seated { IsSeated self.old }
        requires racing { Racing tells told P.ways P.stands P.lost self.old }
        requires keep { KeepRaces P.ways P.stands P.lost }
        ensures turns { OnOk result (Turns tells told (at_end P.ways) self.old self.new) }
        ensures seated { OnOk result (IsSeated self.new) }
    {
        let alloc = self.names.alloc();
        let people = self.names.people.as_slice();
        see_all(
            rt,
            alloc,
            &self.book,
            &mut self.seat,
            &mut self.crew.nodes,
            people,
        )?;
        Ok(())
    }

    /// Plays the step of this number. A person that it declares takes the signer.
    pub(crate) fn play_step<R: Threads + Wait + Sync>(
        &mut self,
        rt: &R,
        number: u32,
        step: &Step,
        signer: Option<Signer>,
    ) -> Result<(), RoundFault>
        requires fresh { signer ≡ signer_of step.now }
        requires fits { Fits step.now }
        requires may_race { runs_in_race step.now ≡ true }
        requires few { length self.old.names.people + persons step.now ≤ 16 }
        requires seated { IsSeated self.old }
        requires racing { Racing tells told P.ways P.stands P.lost self.old }
        requires keep { KeepRaces P.ways P.stands P.lost }
        ensures does { OnOk result (DoesAs P.ways number (meaning self.old.names step.now)
            (race_of tells told self.old) (race_of tells told self.new)) }
        ensures seated { OnOk result (IsSeated self.new) }
        ensures people { OnOk result (length self.new.names.people ≤ length self.old.names.people + persons step.now) }
    {
        let effect = meet(&mut self.names, step, signer)?;
        self.do_effect(rt, number, effect)?;
        Ok(())
    }

    /// The nodes with their watchers.
    pub fn members(&self) -> &[Member<P>]
        ensures { result.now ≡ (race_of tells told self.entry.now).scene.world.members }
    {
        self.crew.nodes.as_slice()
    }

    /// What names stand for at the end, how long the history was after each round, the entries in the order of time,
    /// and the nodes with their watchers.
    pub fn into_parts(self) -> (Names, Listed<u32>, Vec<Entry>, Vec<Member<P>>)
        requires seated { IsSeated self }
        ensures names { result.0 ≡ (race_of tells told self).scene.names }
        ensures rounds { result.1 ≡ (race_of tells told self).scene.rounds }
        ensures history { newest_first result.2.items ≡ (race_of tells told self).scene.world.history }
        ensures members { result.3.items ≡ (race_of tells told self).scene.world.members }
    {
        let Race {
            names,
            book,
            seat,
            crew,
            rounds,
            ..
        } = self;
        match book.close(seat) {
            Ok(history) => (names, rounds, history, crew.nodes),
            Err(_) => unreachable!(),
        }
    }
}
