//! A chain with its answer.

ghost use Rattle.std.specs.Prelude.{◌≡◌, ◌≤◌, ◌<◌, ℕ, length, map, drop, slice_get, Some, OnOk, IfOk};
ghost use Rattle.call_history.specs.Marked.{marked_of, chain_of, put, lowest, lowered, answered};
ghost use Rattle.channel_values.specs.declared.chain.Mark.{Mark as AMark};

use channel_values::{Chain, Fixed, Listed, Mark, NoMemory, Signed, State, mover_at};

/// The smallest of a place and the places of the marks.
fn lowest_place(place: usize, marks: &[Mark]) -> usize
    ensures value { result ≡ lowest place marks.now }
    ensures inside { result ≤ place }
    ensures below { (i : ℕ) (m : AMark) → slice_get marks.now i ≡ Some m → result ≤ m.place }
{
    let mut least = place;
    for mark in marks {
        let at = mark.place as usize;
        if at < least {
            least = at;
        }
    }
    least
}

/// Adds a mark while participants have none yet, and else changes that of participant `j`.
fn put(marks: &mut Vec<Mark>, people: usize, j: usize, mark: Mark) -> Result<(), NoMemory>
    requires { j < people }
    ensures { OnOk result (marks.new.items ≡ put people j mark marks.old.items) }
{
    if marks.len() < people {
        marks.push(mark)?;
    } else {
        marks[j] = mark;
    }
    Ok(())
}

/// Counts the places again after this many states were removed.
fn lower(marks: &mut Vec<Mark>, count: u8)
    requires { (i : ℕ) (m : AMark) → slice_get marks.old.items i ≡ Some m → count ≤ m.place }
    ensures { marks.new.items ≡ map (lowered count) marks.old.items }
{
    for i in 0..marks.len() {
        let place = marks[i].place;
        marks[i].place = place - count;
    }
}

/// Removes the first states.
fn forget(states: &mut Vec<State>, count: usize)
    requires { count ≤ length states.old.items }
    ensures { states.new.items ≡ drop count states.old.items }
{
    for _ in 0..count {
        states.remove(0);
    }
}

/// The chain with the state added as its last, marked by the state's mover, without the states before the first
/// marked one. A place is one byte, so the chain has at most 255 states.
pub fn answered(fixed: &Fixed, chain: Chain, next: Signed) -> Result<Chain, NoMemory>
    requires { length chain.states ≤ 255 }
    ensures { IfOk result (λ c. c ≡ chain_of chain.fixed (answered fixed.now next (marked_of chain))) }
{
    let Chain {
        fixed: own,
        states,
        marks,
    } = chain;
    let mut states = states.into_vec();
    let mut marks = marks.into_vec();
    let place = states.len();
    let mark = Mark {
        place: place as u8,
        signature: next.signature,
    };
    let mover = mover_at(fixed, next.state.turn());
    put(&mut marks, fixed.keys().len(), mover, mark)?;
    states.push(next.state)?;
    let first = lowest_place(place, &marks);
    forget(&mut states, first);
    lower(&mut marks, first as u8);
    Ok(Chain {
        fixed: own,
        states: Listed::make(states),
        marks: Listed::make(marks),
    })
}
