//! An actor of the cast, which is asked once in a phase.

ghost use Rattle.std.specs.Prelude.{◌≡◌, ◌∷◌, ◌++◌, [], OnOk, IfOk, true, false};
ghost use Rattle.network_rounds.specs.Players.{Asks, posted};
ghost use Rattle.network_rounds.specs.Working.{Works, Working};
ghost use Rattle.network_rounds.specs.Views.{player_of};

use crate::actor::{Act, Actor, Notes};
use crate::callers::{enter, look};
use crate::fault::RoundFault;
use crate::member::Letter;
use adjudicator::Adjudicator;
use shared_object::{Book, Seat};
use std::alloc::Global;
use std::sync::Wait;
use std::thread::Threads;

/// An actor with its number and its notes.
#[derive(Drop)]
pub struct Cast {
    pub number: u32,
    pub actor: Box<dyn Actor + Send>,
    pub notes: Notes,
    pub done: bool,
}

// It looks at all entries.
fn shown<R: Wait>(
    rt: &R,
    alloc: Global,
    book: &Book<Adjudicator>,
    mut cast: Cast,
    seat: &mut Seat<Adjudicator>,
) -> Result<Cast, RoundFault>
    requires { seat.old.book ≡ book.now }
    ensures book { OnOk result (seat.new.book ≡ seat.old.book) }
    ensures works { OnOk result (Works [] seat.old seat.new) }
    ensures notes { IfOk result (λ x. x.notes.entries.items ≡ seat.new.seen) }
    ensures same { IfOk result (λ x.
        (x.number ≡ cast.number) × (x.done ≡ cast.done) × (tells x.actor ≡ tells cast.actor)
        × (told x.actor ≡ told cast.actor)) }
{
    let entries = look(rt, alloc, book, seat, 0)?;
    cast.notes = Notes { entries };
    Ok(cast)
}

// It answers.
fn asked(mut cast: Cast) -> (Cast, Act)
    ensures same { (result.0.number ≡ cast.number) × (result.0.done ≡ cast.done)
        × (result.0.notes.entries.items ≡ cast.notes.entries.items) }
    ensures told { tells cast.actor ≡ true → (tells result.0.actor ≡ true)
        × (told result.0.actor ≡ told cast.actor ++ result.1 ∷ []) }
{
    let act = cast.actor.act(&cast.notes);
    (cast, act)
}

/// It looks and is asked once. Its call is entered under its number. The messages that it sends are the answer.
pub(crate) fn play<R: Threads + Wait + Sync>(
    rt: &R,
    alloc: Global,
    book: &Book<Adjudicator>,
    cast: Cast,
    seat: &mut Seat<Adjudicator>,
) -> Result<(Cast, Option<Letter>), RoundFault>
    requires awake { cast.done ≡ false }
    requires book { seat.old.book ≡ book.now }
    ensures book { OnOk result (seat.new.book ≡ seat.old.book) }
    ensures plays { IfOk result (λ r.
        Working (Asks (player_of tells told cast) (player_of tells told r.0) (posted r.1)) seat.old seat.new) }
{
    let cast = shown(rt, alloc, book, cast, seat)?;
    let (mut cast, act) = asked(cast);
    match act {
        Act::Enter(call) => {
            enter(rt, alloc, book, seat, cast.number, call)?;
            Ok((cast, None))
        }
        Act::Post(to, bytes) => Ok((cast, Some((to, bytes)))),
        Act::Rest => Ok((cast, None)),
        Act::Done => {
            cast.done = true;
            Ok((cast, None))
        }
        Act::NoMemory => Err(RoundFault::NoMemory),
    }
}
