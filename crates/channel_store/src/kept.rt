//! What is kept of one channel.

ghost use Rattle.std.specs.Prelude.{◌≡◌, ◌<◌, ◌≤◌, length, None, IfOk};
ghost use Rattle.std.specs.List.{list_all};
ghost use Rattle.std.specs.Option.{option_map};
ghost use Rattle.std.specs.Result.{result_err};
ghost use Rattle.channel_values.specs.Rows.{mover};
ghost use Rattle.channel_values.specs.Rules.{people, newest, is_signed_well};
ghost use Rattle.call_history.specs.Marked.{marked_of, is_supported, is_newer, next_after};
ghost use Rattle.support_rules.specs.Real.{real};
ghost use Rattle.channel_store.specs.Keeping.{is_held, is_ended, next_of, step_of, last_after, with_chain, noting};
ghost use Rattle.channel_store.specs.Good.{note_fault, is_as_new, IsGoodKept};

use crate::fault::NoteFault;
use call_history::{answered, newest, top_turn};
use channel_values::{Chain, Fixed, Name, NoMemory, Signed, State, StepFault};
use std::mem;
use support_rules::{people_of, signs_state, step, supports};

/// A channel, the participant's position in it, the states that were noted or shown with their marks, and the last
/// state that the participant signed itself. Once each participant has a mark, the states are the held chain.
#[derive(Drop)]
pub struct Kept {
    pub channel: Name,
    pub me: u8,
    pub chain: Chain,
    pub last: Option<State>,
}

fn mover_of(fixed: &Fixed, state: &State) -> usize
    ensures value { result ≡ mover (people fixed.now) state.now.turn }
    ensures there { result < people fixed.now }
{
    (state.turn() % fixed.keys().len() as u64) as usize
}

fn is_signed_well(fixed: &Fixed, signed: &Signed) -> bool
    ensures { result ≡ is_signed_well real fixed.now signed.now }
{
    let mover = mover_of(fixed, &signed.state);
    signs_state(fixed, mover, &signed.state, signed.signature.as_slice())
}

fn are_final(states: &[State]) -> bool
    ensures { result ≡ list_all (λ s. s.is_final) states.now }
{
    states.iter().all(|state| state.is_final())
}

fn copy_last(last: &Option<State>) -> Result<Option<State>, NoMemory>
    ensures { IfOk result (λ o. o ≡ last.now) }
{
    match last {
        None => Ok(None),
        Some(state) => {
            let copy = state.copy()?;
            Ok(Some(copy))
        }
    }
}

impl Kept {
    /// Whether a chain is held: each participant has a mark.
    pub(crate) fn is_held(&self) -> bool
        ensures { result ≡ is_held self.now }
    {
        self.chain.fixed.keys().len() <= self.chain.marks.as_slice().len()
    }

    /// Whether the states of the held chain are all final.
    pub fn is_ended(&self) -> bool
        ensures { result ≡ is_ended self.now }
    {
        self.is_held() && are_final(self.chain.states.as_slice())
    }

    /// The newest state.
    pub fn latest(&self) -> Option<&State>
        ensures { option_map (λ m. m.now) result ≡ newest self.now.chain.states }
    {
        newest(self.chain.states.as_slice())
    }

    /// The turn that comes next.
    pub fn next(&self) -> u64
        ensures { result ≡ next_of self.now }
    {
        match self.latest() {
            None => 0,
            Some(latest) => latest.turn() + 1,
        }
    }

    /// Whether the state follows from the newest one, if there is one.
    pub fn follow(&self, state: &State) -> Result<(), StepFault>
        ensures { result_err result ≡ step_of real self.now state.now }
    {
        match self.latest() {
            None => Ok(()),
            Some(latest) => {
                let people = people_of(&self.chain.fixed);
                step(&self.chain.fixed, people.as_slice(), latest, state)
            }
        }
    }

    /// Why the state isn't noted, if it isn't.
    pub(crate) fn check(&self, signed: &Signed) -> Result<(), NoteFault>
        ensures { result_err result ≡ note_fault real self.now signed.now }
    {
        if self.is_ended() {
            return Err(NoteFault::NotNext(0));
        }
        let next = self.next();
        if signed.state.turn() != next {
            return Err(NoteFault::NotNext(next));
        }
        if !is_signed_well(&self.chain.fixed, signed) {
            return Err(NoteFault::BadSignature);
        }
        if let Err(fault) = self.follow(&signed.state) {
            return Err(NoteFault::BadStep(fault));
        }
        Ok(())
    }

    /// The last state that the participant signed, once this one is noted; `own` says that it signed this one.
    fn last_after(&self, state: &State, own: bool) -> Result<Option<State>, NoMemory>
        ensures { IfOk result (λ o. o ≡ last_after own self.now state.now) }
    {
        if own {
            let copy = state.copy()?;
            Ok(Some(copy))
        } else {
            copy_last(&self.last)
        }
    }

    /// A copy of the states and marks. A channel has at most four people, and no more states are kept.
    fn copy_chain(&self) -> Result<Chain, NoMemory>
        requires { length self.now.chain.states ≤ people self.now.chain.fixed }
        ensures same { IfOk result (λ chain. chain ≡ self.now.chain) }
        ensures few { length self.now.chain.states ≤ 4 }
    {
        let _ = self.chain.fixed.keys();
        self.chain.copy()
    }

    /// What is kept with the state noted; `own` says that the participant signed it.
    pub(crate) fn noted(&self, signed: Signed, own: bool) -> Result<Kept, NoMemory>
        requires passes { note_fault real self.now signed ≡ None }
        requires few { length self.now.chain.states ≤ people self.now.chain.fixed }
        ensures { IfOk result (λ k. k ≡ noting real own signed self.now) }
    {
        let last = self.last_after(&signed.state, own)?;
        let chain = self.copy_chain()?;
        let chain = answered(&self.chain.fixed, chain, signed)?;
        Ok(Kept {
            channel: self.channel,
            me: self.me,
            chain,
            last,
        })
    }

    /// What is kept with these states and marks in place of the others.
    pub(crate) fn with_chain(&self, shown: Chain) -> Result<Kept, NoMemory>
        ensures { IfOk result (λ k. k ≡ with_chain (marked_of shown) self.now) }
    {
        let fixed = self.chain.fixed.copy()?;
        let last = copy_last(&self.last)?;
        Ok(Kept {
            channel: self.channel,
            me: self.me,
            chain: Chain {
                fixed,
                states: shown.states,
                marks: shown.marks,
            },
            last,
        })
    }

    /// Whether the states and marks are supported with this channel's fixed part. Both chains are as before.
    fn supports(&mut self, shown: &mut Chain) -> bool
        ensures value { result ≡ is_supported real self.old.chain.fixed (marked_of shown.old) }
        ensures same { self.new ≡ self.old }
        ensures shown { shown.new ≡ shown.old }
    {
        mem::swap(&mut self.chain.fixed, &mut shown.fixed);
        let is_supported = supports(shown).is_ok();
        mem::swap(&mut self.chain.fixed, &mut shown.fixed);
        is_supported
    }

    /// Whether a chain is held with at least the turn of the shown one.
    fn is_as_new(&self, shown: &Chain) -> bool
        ensures { result ≡ is_as_new self.now (marked_of shown.now) }
    {
        self.is_held()
            && top_turn(shown.states.as_slice()) <= top_turn(self.chain.states.as_slice())
    }

    /// Whether the states and marks are supported with this channel's fixed part, and no chain is held or the held one
    /// is older. Both chains are as before.
    #[tactic(auto, using(crate::proofs::Good::not_newer))]
    pub(crate) fn is_newer(&mut self, shown: &mut Chain) -> bool
        requires { IsGoodKept real self.old }
        ensures value { result ≡ is_newer real self.old.chain.fixed (marked_of shown.old) (marked_of self.old.chain) }
        ensures same { self.new ≡ self.old }
        ensures shown { shown.new ≡ shown.old }
    {
        if self.is_as_new(shown) {
            return false;
        }
        self.supports(shown)
    }
}
