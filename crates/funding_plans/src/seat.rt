//! What a participant knows of one of its channels, and what it may sign and take there.

ghost use Rattle.std.specs.Prelude.{◌≡◌, ◌≤◌, ◌^◌, [], IfOk, Some, true, length};
ghost use Rattle.std.specs.Option.{option_copied};
ghost use Rattle.std.specs.Str.{bytes_eq};
ghost use Rattle.support_rules.specs.Ballots.{ballot_of};
ghost use Rattle.support_rules.specs.Toward.{is_settled};
ghost use Rattle.channel_values.specs.Parts.{state_with};
ghost use Rattle.funding_plans.specs.Limits.{is_valid};
ghost use Rattle.funding_plans.specs.Seats as seats;

use crate::aim::{Aim, AimKind};
use crate::amounts::amounts_in;
use crate::changed::Changed;
use crate::child::Child;
use channel_values::{Name, NoMemory, Outcome, State};
use std::alloc::Global;
use std::marker::Model;
use support_rules::{is_same_outcome, move_toward, votes_of};

/// What is known of one channel. Contracts see the values.
#[derive(Drop)]
pub struct SeatView<'a> {
    pub(crate) name: Name,
    pub(crate) people: &'a [Name],
    pub(crate) me: u8,
    pub(crate) next: u64,
    pub(crate) opening: Aim<'a>,
    pub(crate) top: Option<&'a State>,
    pub(crate) all_final: bool,
    pub(crate) own: Option<&'a State>,
}

impl<'a> Model for SeatView<'a> {
    ghost use Rattle.std.specs.Prelude.{◌≤◌, length};
    ghost use Rattle.std.specs.Option.{option_copied};
    ghost use Rattle.funding_plans.specs.Seats.{Seat};

    ghost Value = { Seat };

    ghost view = { λ c. record { name = c.name; people = c.people.now; me = c.me; next = c.next; opening = c.opening; top = option_copied c.top; all_final = c.all_final; own = option_copied c.own } };

    ghost invariant = { λ c. (2 ≤ length c.people.now) × (length c.people.now ≤ 4) };
}

impl<'a> SeatView<'a> {
    pub fn is_named(&self, name: &Name) -> bool
        ensures { result ≡ bytes_eq self.now.name name.now }
    {
        self.name == *name
    }

    pub fn name(&self) -> Name
        ensures { result ≡ self.now.name }
    {
        self.name
    }

    pub fn people(&self) -> &'a [Name]
        ensures value { result.now ≡ self.now.people }
        ensures several { 2 ≤ length self.now.people }
        ensures few { length self.now.people ≤ 4 }
    {
        self.people
    }

    /// The latest state of the held chain.
    pub fn latest(&self) -> Option<&'a State>
        ensures { option_copied result ≡ self.now.top }
    {
        self.top
    }

    /// The state that the participant signed last.
    pub fn own_last(&self) -> Option<&'a State>
        ensures { option_copied result ≡ self.now.own }
    {
        self.own
    }

    /// The states of the held chain are all final.
    pub fn has_finals(&self) -> bool
        ensures { result ≡ self.now.all_final }
    {
        self.all_final
    }

    /// The held chain has this turn or more.
    pub fn holds(&self, turn: u64) -> bool
        ensures { result ≡ seats.holds turn self.now }
    {
        match self.top {
            None => false,
            Some(state) => turn <= state.turn(),
        }
    }

    /// The set-up is held whole.
    pub fn is_set_up(&self) -> bool
        ensures { result ≡ seats.is_set_up self.now }
    {
        self.holds(self.people.len() as u64 - 1)
    }

    /// The participant has signed a turn past the set-up.
    pub fn has_signed_past(&self) -> bool
        ensures { result ≡ seats.has_signed_past self.now }
    {
        match self.own {
            None => false,
            Some(state) => self.people.len() as u64 <= state.turn(),
        }
    }

    pub fn is_top_final(&self) -> bool
        ensures { result ≡ seats.state_is seats.is_state_final self.now.top }
    {
        match self.top {
            None => false,
            Some(state) => state.is_final(),
        }
    }

    fn is_turn(&self) -> bool
        ensures { result ≡ seats.is_turn self.now }
    {
        self.next % self.people.len() as u64 == self.me as u64
    }
}

impl<'a> SeatView<'a> {
    /// An own turn from one to below another repeats the opening outcome.
    pub fn repeats(&self, alloc: Global, from: u64, until: u64) -> Result<Option<State>, NoMemory>
        requires until { until ≤ 2 ^ 48 }
        ensures { IfOk result (λ o. o ≡ seats.repeats from until self.now) }
    {
        if self.next < from || until <= self.next || !self.is_turn() {
            return Ok(None);
        }
        match self.opening.build(alloc)? {
            None => Ok(None),
            Some(outcome) => {
                let state = plain_state(alloc, self.next, false, outcome)?;
                Ok(Some(state))
            }
        }
    }

    /// At its own turn, where the latest state has no votes, a final state that repeats it.
    pub fn final_state(&self, alloc: Global) -> Result<Option<State>, NoMemory>
        ensures { IfOk result (λ o. o ≡ seats.final_state self.now) }
    {
        let Some(latest) = self.top else {
            return Ok(None);
        };
        if !latest.app_bytes().is_empty() || self.next >= 1 << 48 || !self.is_turn() {
            return Ok(None);
        }
        let outcome = latest.outcome().copy()?;
        let state = plain_state(alloc, self.next, true, outcome)?;
        Ok(Some(state))
    }

    /// At its own turn on an outcome without votes: pass.
    pub fn pass_on(&self, alloc: Global, on: &Aim) -> Result<Option<State>, NoMemory>
        ensures { IfOk result (λ o. o ≡ seats.pass_on on.now self.now) }
    {
        let Some(latest) = self.top else {
            return Ok(None);
        };
        if !self.is_turn()
            || latest.is_final()
            || latest.turn() + 1 >= 1 << 48
            || !latest.app_bytes().is_empty()
            || !on.is_spelled(latest.outcome().bytes())
        {
            return Ok(None);
        }
        let outcome = latest.outcome().copy()?;
        let state = plain_state(alloc, latest.turn() + 1, false, outcome)?;
        Ok(Some(state))
    }

    fn toward_outcome(&self, alloc: Global, target: &Outcome) -> Result<Option<State>, NoMemory>
        requires { is_valid target.now ≡ true }
        ensures { IfOk result (λ o. o ≡ seats.toward (Some target.now) self.now) }
    {
        let Some(latest) = self.top else {
            return Ok(None);
        };
        if !self.is_turn() {
            return Ok(None);
        }
        move_toward(alloc, self.people.len(), target, latest, self.own)
    }

    fn toward_aim(&self, alloc: Global, target: &Aim) -> Result<Option<State>, NoMemory>
        ensures { IfOk result (λ o. o ≡ seats.toward (Some target.now) self.now) }
    {
        match target.build(alloc)? {
            None => Ok(None),
            Some(ends) => self.toward_outcome(alloc, &ends),
        }
    }

    /// At its own turn the consensus move toward a target, where there is one.
    pub fn toward(&self, alloc: Global, target: &Option<Aim>) -> Result<Option<State>, NoMemory>
        ensures { IfOk result (λ o. o ≡ seats.toward target.now self.now) }
    {
        match target {
            None => Ok(None),
            Some(target) => self.toward_aim(alloc, target),
        }
    }
}

/// A state with no data.
fn plain_state(
    alloc: Global,
    turn: u64,
    is_final: bool,
    outcome: Outcome,
) -> Result<State, NoMemory>
    ensures { IfOk result (λ s. s ≡ state_with turn is_final outcome []) }
{
    State::make(alloc, turn, is_final, outcome, Vec::new(alloc)).map_err(|_| NoMemory)
}

impl<'a> SeatView<'a> {
    /// The latest outcome with the child.
    pub fn up_in(&self, child: Child) -> Option<Aim<'a>>
        ensures { result ≡ seats.up_in child self.now }
    {
        match self.top {
            None => None,
            Some(state) => {
                let changed = Changed {
                    child,
                    base: state.outcome(),
                    is_up: true,
                };
                Some(Aim::make(AimKind::Moved(changed)))
            }
        }
    }

    fn down_with(&self, child: Child, a: u64, b: u64) -> Option<Aim<'a>>
        ensures { result ≡ seats.down_in child self.now (Some (a, b)) }
    {
        match self.top {
            None => None,
            Some(state) => {
                let mut child = child;
                child.a = a;
                child.b = b;
                let changed = Changed {
                    child,
                    base: state.outcome(),
                    is_up: false,
                };
                Some(Aim::make(AimKind::Moved(changed)))
            }
        }
    }

    /// The latest outcome without the child, of which the two people get these amounts.
    pub fn down_in(&self, child: Child, amounts: Option<(u64, u64)>) -> Option<Aim<'a>>
        ensures { result ≡ seats.down_in child self.now amounts }
    {
        match amounts {
            None => None,
            Some((a, b)) => self.down_with(child, a, b),
        }
    }

    /// The outcome that the participant signed last doesn't name the child.
    pub fn is_down(&self, child: Child) -> bool
        ensures { result ≡ seats.is_down child self.now }
    {
        match self.own {
            None => false,
            Some(state) => !child.is_in(state.outcome()),
        }
    }

    /// What two people have in the latest outcome.
    pub fn amounts_of(&self, asset: u32, first: &Name, second: &Name) -> Option<(u64, u64)>
        ensures { result ≡ seats.amounts_after asset first.now second.now self.now.top }
    {
        match self.top {
            None => None,
            Some(state) => Some(amounts_in(asset, first, second, state.outcome())),
        }
    }

    fn is_settled(&self, target: &Aim) -> bool
        ensures { result ≡ is_settled (length self.now.people) target.now self.now.own }
    {
        match self.own {
            None => false,
            Some(state) => {
                target.is_spelled(state.outcome().bytes())
                    && match votes_of(self.people.len(), state.app_bytes()) {
                        None => false,
                        Some((votes, _)) => votes == 0,
                    }
            }
        }
    }

    /// Settled on a target.
    pub fn is_settled_on(&self, target: &Option<Aim>) -> bool
        ensures { result ≡ seats.settled_on target.now self.now }
    {
        match target {
            None => false,
            Some(target) => self.is_settled(target),
        }
    }
}

impl<'a> SeatView<'a> {
    pub fn is_opening(&self, state: &State) -> bool
        ensures { result ≡ seats.is_opening self.now state.now }
    {
        !state.is_final()
            && self.opening.is_spelled(state.outcome().bytes())
            && state.app_bytes().is_empty()
    }

    /// In a payment channel any step.
    pub fn takes_payment(&self, state: &State) -> bool
        ensures { result ≡ seats.takes_payment self.now state.now }
    {
        if state.turn() < self.people.len() as u64 {
            self.is_opening(state)
        } else {
            true
        }
    }

    /// In a virtual ledger on which nothing moves the present outcome with no votes, and once it closes a final state.
    pub fn takes_idle(&self, closing: bool, state: &State) -> bool
        ensures { result ≡ seats.takes_idle closing self.now state.now }
    {
        if state.turn() < self.people.len() as u64 {
            self.is_opening(state)
        } else if state.is_final() {
            closing
        } else {
            self.is_now(state) && state.app_bytes().is_empty()
        }
    }

    /// In a fixed channel only a final state.
    pub fn takes_fixed(&self, state: &State) -> bool
        ensures { result ≡ seats.takes_fixed self.now state.now }
    {
        if state.turn() < self.people.len() as u64 {
            self.is_opening(state)
        } else {
            state.is_final()
        }
    }

    /// The state has the latest outcome.
    pub fn is_now(&self, state: &State) -> bool
        ensures { result ≡ seats.is_now self.now.top state.now }
    {
        match self.top {
            None => false,
            Some(latest) => is_same_outcome(state.outcome(), latest.outcome()),
        }
    }

    fn takes_ballot(&self, target: &Option<Aim>, state: &State) -> bool
        ensures { result ≡ seats.takes_ballot (seats.is_spelled target.now)
            (ballot_of (length self.now.people) state.now.app_bytes) }
    {
        match votes_of(self.people.len(), state.app_bytes()) {
            None => false,
            Some((votes, proposal)) => votes == 0 || is_target(target, proposal),
        }
    }

    /// In a consensus channel a final state, or one with the present outcome or the target that, where it has votes,
    /// proposes the target.
    pub fn takes_vote(&self, target: &Option<Aim>, state: &State) -> bool
        ensures { result ≡ seats.takes_vote (seats.is_spelled target.now) self.now state.now }
    {
        if state.turn() < self.people.len() as u64 {
            self.is_opening(state)
        } else {
            state.is_final()
                || ((self.is_now(state) || is_target(target, state.outcome().bytes()))
                    && self.takes_ballot(target, state))
        }
    }
}

fn is_target(target: &Option<Aim>, bytes: &[u8]) -> bool
    ensures { result ≡ seats.is_spelled target.now bytes.now }
{
    match target {
        None => false,
        Some(target) => target.is_spelled(bytes),
    }
}
