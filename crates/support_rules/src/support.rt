//! When a chain supports the turn of its last state.

ghost use Rattle.std.specs.Prelude.{◌≡◌, ◌+◌, ◌<◌, ◌≤◌, ◌^◌, length, IfOk};
ghost use Rattle.std.specs.List.{slice_get};
ghost use Rattle.std.specs.Result.{result_err};
ghost use Rattle.channel_values.specs.Rows as rows;
ghost use Rattle.channel_values.specs.Support as model;
ghost use Rattle.support_rules.specs.Steps.{persons};
ghost use Rattle.support_rules.specs.Real.{real};

use crate::signature::mark_verifies;
use crate::steps::step;
use arrayvec::ArrayVec;
use channel_values::{
    Chain, Fixed, MOST_MARKS, MOST_PEOPLE, Mark, Name, State, SupportFault, person_name,
};

/// Whether each state of a row has the turn after its predecessor's. The first of the rest has place `i`.
fn turns_rise(i: usize, before: &State, rest: &[State]) -> Result<(), SupportFault>
    requires { i + length rest.now < 2 ^ 64 }
    ensures { result_err result ≡ rows.first_between rows.turn_fault i before.now rest.now }
{
    let [next, rest @ ..] = rest else {
        return Ok(());
    };
    if next.turn() != before.turn() + 1 {
        return Err(SupportFault::Turn(i));
    }
    turns_rise(i + 1, next, rest)
}

/// Whether each state of a row follows from its predecessor.
fn states_follow(
    fixed: &Fixed,
    people: &[Name],
    i: usize,
    before: &State,
    rest: &[State],
) -> Result<(), SupportFault>
    requires people { people.now ≡ persons fixed.now }
    requires places { i + length rest.now < 2 ^ 64 }
    ensures { result_err result ≡ rows.first_between (model.link_fault real fixed.now) i before.now rest.now }
{
    let [next, rest @ ..] = rest else {
        return Ok(());
    };
    if let Err(fault) = step(fixed, people, before, next) {
        return Err(SupportFault::Step(i, fault));
    }
    states_follow(fixed, people, i + 1, next, rest)
}

/// The turn of the last state of a row.
fn turn_of_last(first: &State, rest: &[State]) -> u64
    ensures value { result ≡ (rows.last_of first.now rest.now).turn }
    ensures small { result < 2 ^ 48 }
{
    match rest {
        [] => first.turn(),
        [next, rest @ ..] => turn_of_last(next, rest),
    }
}

/// The greatest turn of at most `turn` whose mover is `j`, of `n`.
#[tactic(auto, using(channel_values::proofs::Turns::turn_down, channel_values::proofs::Turns::turn_zero))]
fn last_turn(n: u64, j: u64, turn: u64) -> u64
    requires { 0 < n }
    ensures { result ≡ rows.last_turn n j turn }
{
    let mut last = turn;
    while last > 0 && last % n != j {
        last -= 1;
    }
    last
}

/// Whether the place is one of a state whose turn is at least the last one of participant `j`.
fn is_late(n: u64, turn: u64, j: u64, states: &[State], place: u8) -> bool
    requires { 0 < n }
    ensures { result ≡ rows.is_late n turn j (slice_get states.now place) }
{
    match states.get(place as usize) {
        None => false,
        Some(state) => last_turn(n, j, turn) <= state.turn(),
    }
}

/// The persons of the keys.
pub fn people_of(fixed: &Fixed) -> ArrayVec<Name, MOST_PEOPLE>
    ensures { result.items ≡ persons fixed.now }
{
    let mut people = ArrayVec::new();
    for key in fixed.keys() {
        people.push(person_name(key));
    }
    people
}

/// The turn of the last state of a row of states.
fn row_turn(fixed: &Fixed, states: &[State], marks: usize) -> Result<u64, SupportFault>
    ensures value { result ≡ model.row_of real fixed.now states.now marks }
    ensures few { IfOk result (λ _. marks ≤ 4) }
{
    let n = fixed.keys().len();
    let [first, rest @ ..] = states else {
        return Err(SupportFault::Length);
    };
    if states.len() > n || marks != n {
        return Err(SupportFault::Length);
    }
    turns_rise(1, first, rest)?;
    let turn = turn_of_last(first, rest);
    if turn < n as u64 - 1 {
        return Err(SupportFault::Length);
    }
    let people = people_of(fixed);
    states_follow(fixed, people.as_slice(), 1, first, rest)?;
    Ok(turn)
}

/// The turn, unless a mark doesn't do, where `verified` says which marks verify.
fn marked_turn(chain: &Chain, turn: u64, verified: &[bool]) -> Result<u64, SupportFault>
    requires { length verified.now ≡ length chain.now.marks }
    ensures { result ≡ rows.turn_unless turn
        (rows.marks_fault (length chain.now.fixed.keys) turn chain.now.states 0 chain.now.marks verified.now) }
{
    let n = chain.fixed.keys().len() as u64;
    let states = chain.states.as_slice();
    for (j, mark) in chain.marks.as_slice().iter().enumerate() {
        if !verified[j] || !is_late(n, turn, j as u64, states, mark.place) {
            return Err(SupportFault::Signature(j));
        }
    }
    Ok(turn)
}

/// Of each of at most four marks whether it verifies.
fn verify_marks(fixed: &Fixed, states: &[State], marks: &[Mark]) -> ArrayVec<bool, MOST_MARKS>
    requires { length marks.now ≤ 4 }
    ensures each { result.items ≡ model.verified_from real fixed.now states.now 0 marks.now }
    ensures as_many { length result.items ≡ length marks.now }
{
    let mut verified = ArrayVec::new();
    for (j, mark) in marks.iter().enumerate() {
        verified.push(mark_verifies(fixed, states, j, mark));
    }
    verified
}

/// The turn that the chain supports, or its first fault, where `verified` says which marks verify.
pub fn supports_with(chain: &Chain, verified: &[bool]) -> Result<u64, SupportFault>
    requires { length verified.now ≡ length chain.now.marks }
    ensures { result ≡ model.support_of real chain.now verified.now }
{
    let marks = chain.marks.as_slice().len();
    let turn = row_turn(&chain.fixed, chain.states.as_slice(), marks)?;
    marked_turn(chain, turn, verified)
}

/// The turn that the chain supports, or its first fault.
#[tactic(auto, unfolding(channel_values::specs::Support::supports))]
pub fn supports(chain: &Chain) -> Result<u64, SupportFault>
    ensures { result ≡ model.supports real chain.now }
{
    let states = chain.states.as_slice();
    let marks = chain.marks.as_slice();
    let turn = row_turn(&chain.fixed, states, marks.len())?;
    let verified = verify_marks(&chain.fixed, states, marks);
    marked_turn(chain, turn, verified.as_slice())
}
