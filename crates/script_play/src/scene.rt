//! What a run has come to, and what is done in it.

ghost use Rattle.std.specs.Prelude.{◌≡◌, ◌≤◌, ◌<◌, ◌+◌, ◌*◌, ◌-◌, ◌^◌, ◌==◌, ◌||◌, ◌++◌, ◌∷◌, [], length, fold, filter, not, OnOk, IfOk, IfSome, IsTrue};
ghost use Rattle.std.specs.Str.{bytes_eq};
ghost use Rattle.std.specs.Option.{option_map};
ghost use Rattle.call_history.specs.History.{Legal, newest_first};
ghost use Rattle.support_rules.specs.Real.{real};
ghost use Rattle.network.specs.Entered.{oldest_first};
ghost use Rattle.network.specs.Worlds.{happened, given, joined, journal};
ghost use Rattle.network.specs.declared.happening.Happening.TheVariants as happenings;
ghost use Rattle.script_steps.specs.Conditions.{signer_of};
ghost use Rattle.script_steps.specs.Bounds.{Fits, persons};
ghost use Rattle.step_meanings.specs.Meanings.{with_state};
ghost use Rattle.script_play.specs.Play.{empty, caught, told, naming, entering, play_round, play_rounds, done, played, at_end};
ghost use Rattle.script_play.specs.Growth.{FitsEffect, effect_weight, weight};
ghost use Rattle.step_meanings.specs.declared.effect.Effect.TheVariants as effects;
ghost use Rattle.script_play.specs.Rounds.{most_in_round};

use crate::catching::caught;
use crate::rounds::{Letter, round, see, see_all};
use call_history::{Entry, Op};
use channel_values::{Key, Label, Listed, Name, NoMemory};
use lms_signatures::Signer;
use network::{Command, Docket, Happening, Member, Party, World, copy_command, world_step};
use script_steps::Step;
use std::alloc::Global;
use std::marker::Model;
use step_meanings::{Effect, Names, meet};

/// What names stand for, the world, the messages on their way, and how long the history was after each round.
#[derive(Drop)]
pub struct Scene<P: Party, D: Docket> {
    pub(crate) names: Names,
    world: World<P, D>,
    post: Vec<Letter>,
    rounds: Listed<u32>,
}

impl<P: Party, D: Docket> Model for Scene<P, D> {
    ghost use Rattle.script_play.specs.Play.{SceneOf};

    ghost Value = { SceneOf P };

    ghost view = { λ s. record { names = s.names; world = s.world; post = s.post.items; rounds = s.rounds } };
}

/// The happening by which the script enters an op.
fn entering(op: Op) -> Happening
    ensures { result ≡ entering op }
{
    match op {
        Op::Call(call) => Happening::Enter(0, call),
        Op::Time(to) => Happening::Time(to),
    }
}

/// The letters that are not for this person.
pub fn without(alloc: Global, post: &[Letter], who: &Name) -> Result<Vec<Letter>, NoMemory>
    ensures { IfOk result (λ rest. rest.items ≡ filter (λ letter. not (bytes_eq letter.0 who.now)) post.now) }
{
    let mut rest = Vec::new(alloc);
    for letter in post {
        if letter.0 != *who {
            let bytes = letter.1.copy()?;
            rest.push((letter.0, bytes))?;
        }
    }
    Ok(rest)
}

impl<P: Party, D: Docket> Scene<P, D> {
    pub fn make(alloc: Global) -> Scene<P, D>
        ensures { result ≡ empty }
    {
        Scene {
            names: Names::make(alloc),
            world: World::make(alloc),
            post: Vec::new(alloc),
            rounds: Listed::make(Vec::new(alloc)),
        }
    }

    /// The nodes with their watchers, in the order in which they joined.
    pub fn members(&self) -> &[Member<P>]
        ensures { result.now ≡ self.now.world.members }
    {
        self.world.members()
    }

    /// The entries in the order of time.
    pub fn history(&self) -> &[Entry]
        ensures { result.now ≡ oldest_first self.now.world.history }
    {
        self.world.history()
    }

    /// What names stand for at the end, how long the history was after each round, the entries in the order of time,
    /// and the nodes with their watchers.
    pub fn into_parts(self) -> (Names, Listed<u32>, Vec<Entry>, Vec<Member<P>>)
        ensures names { result.0 ≡ self.names }
        ensures rounds { result.1 ≡ self.rounds }
        ensures history { newest_first result.2.items ≡ self.world.history }
        ensures members { result.3.items ≡ self.world.members }
        ensures legal { Legal real self.world.history }
    {
        let (history, members) = self.world.into_parts();
        (self.names, self.rounds, history, members)
    }

    fn play_round(&mut self) -> Result<(), NoMemory>
        requires { length self.old.world.history + (most_in_round + 32768) < 2 ^ 32 }
        ensures played { OnOk result (self.new ≡ play_round P.ways self.old) }
        ensures grown { OnOk result (length self.new.world.history ≤ length self.old.world.history + most_in_round) }
    {
        let alloc = self.names.alloc();
        let people = self.names.people.as_slice();
        let sent = round(alloc, &mut self.world, people, self.post.as_slice())?;
        self.post = sent.into_vec();
        let count = self.world.history().len() as u32;
        self.rounds.push(count)
    }

    fn play_rounds(&mut self, count: u64) -> Result<(), NoMemory>
        requires { length self.old.world.history + (count * most_in_round + 32768) < 2 ^ 32 }
        ensures played { OnOk result (self.new ≡ play_rounds P.ways count self.old) }
        ensures grown { OnOk result (length self.new.world.history
            ≤ length self.old.world.history + count * most_in_round) }
    {
        for round in 0..count {
            self.play_round()?;
        }
        Ok(())
    }

    /// A node sees, and is given a command.
    fn tell(&mut self, step: u32, number: &u32, command: &Command) -> Result<(), NoMemory>
        requires { length self.old.world.history + 32768 < 2 ^ 32 }
        ensures told { OnOk result (self.new ≡ told P.ways step command.now self.old number.now) }
        ensures same { OnOk result (length self.new.world.history ≡ length self.old.world.history) }
    {
        let number = *number;
        see(&mut self.world, number)?;
        let command = copy_command(command)?;
        let outs = world_step(&mut self.world, Happening::Command(number, step, command))?;
        self.post.append(&mut outs.sends.into_vec())?;
        Ok(())
    }

    fn tell_all(&mut self, step: u32, numbers: &[u32], command: &Command) -> Result<(), NoMemory>
        requires { length self.old.world.history + 32768 < 2 ^ 32 }
        ensures told { OnOk result (self.new ≡ fold (told P.ways step command.now) self.old numbers.now) }
        ensures same { OnOk result (length self.new.world.history ≡ length self.old.world.history) }
    {
        for number in numbers {
            self.tell(step, number, command)?;
        }
        Ok(())
    }

    /// Names the state that a node signed of a channel at a turn, if it did.
    fn catch(
        &mut self,
        name: Label,
        number: u32,
        key: Key,
        channel: Name,
        turn: u64,
    ) -> Result<(), NoMemory>
        ensures { OnOk result (self.new
            ≡ record self.old {
              names = naming self.old.names name key channel
                  (caught channel turn (journal P.ways self.old.world number));
            }) }
    {
        let found = caught(self.world.journal(number), &channel, turn)?;
        match found {
            Some(signed) => self.names.name_state(name, key, channel, signed),
            None => Ok(()),
        }
    }

    fn enter(&mut self, op: Op) -> Result<(), NoMemory>
        requires { length self.old.world.history + 32768 < 2 ^ 32 }
        ensures entered { OnOk result (self.new
            ≡ record self.old { world = happened P.ways (entering op) self.old.world }) }
        ensures grown { OnOk result (length self.new.world.history ≤ length self.old.world.history + 1) }
    {
        world_step(&mut self.world, entering(op))?;
        Ok(())
    }

    /// Does what the step of this number asks.
    pub(crate) fn do_effect(&mut self, step: u32, effect: Effect) -> Result<(), NoMemory>
        requires room { length self.old.world.history + (effect_weight effect + 32768) < 2 ^ 32 }
        requires fits { FitsEffect effect }
        ensures done { OnOk result (self.new ≡ done P.ways step self.old effect) }
        ensures grown { OnOk result (length self.new.world.history
            ≤ length self.old.world.history + effect_weight effect) }
    {
        match effect {
            Effect::Nothing => Ok(()),
            Effect::Enter(op) => self.enter(op),
            Effect::Join(number, signer, watchers) => self.world.join(number, signer, watchers),
            Effect::Tell(numbers, command) => self.tell_all(step, numbers.as_slice(), &command),
            Effect::Post(to, bytes) => self.send(to, bytes),
            Effect::Lose(to) => self.lose(&to),
            Effect::Catch(name, number, key, channel, turn) => {
                self.catch(name, number, key, channel, turn)
            }
            Effect::Rounds(count) => self.play_rounds(count),
        }
    }

    fn send(&mut self, to: Name, bytes: Listed<u8>) -> Result<(), NoMemory>
        ensures { OnOk result (self.new ≡ record self.old { post = self.old.post ++ (to, bytes) ∷ [] }) }
    {
        self.post.push((to, bytes))?;
        Ok(())
    }

    /// The messages on their way to a person are lost.
    fn lose(&mut self, to: &Name) -> Result<(), NoMemory>
        ensures { OnOk result (self.new
            ≡ record self.old { post = filter (λ letter. not (bytes_eq letter.0 to.now)) self.old.post }) }
    {
        let alloc = self.names.alloc();
        self.post = without(alloc, self.post.as_slice(), to)?;
        Ok(())
    }

    /// Each node sees.
    pub(crate) fn see_all(&mut self) -> Result<(), NoMemory>
        requires { length self.old.world.history < 2 ^ 32 - 1 }
        ensures { OnOk result (self.new ≡ at_end P.ways self.old) }
    {
        let people = self.names.people.as_slice();
        see_all(&mut self.world, people)
    }

    /// Plays the step of this number. A person that it declares takes the signer.
    pub(crate) fn play_step(
        &mut self,
        number: u32,
        step: &Step,
        signer: Option<Signer>,
    ) -> Result<(), NoMemory>
        requires fresh { signer ≡ signer_of step.now }
        requires fits { Fits step.now }
        requires room { length self.old.world.history + (weight step.now + 32768) < 2 ^ 32 }
        requires few { length self.old.names.people + persons step.now ≤ 16 }
        ensures played { OnOk result (self.new ≡ played P.ways self.old (number, step.now)) }
        ensures grown { OnOk result (length self.new.world.history ≤ length self.old.world.history + weight step.now) }
        ensures people { OnOk result (length self.new.names.people ≤ length self.old.names.people + persons step.now) }
    {
        let effect = meet(&mut self.names, step, signer)?;
        self.do_effect(number, effect)?;
        Ok(())
    }
}
