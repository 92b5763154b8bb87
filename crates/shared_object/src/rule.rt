//! The rule of the table under a book, and what each step says. These types are for the proofs alone.

use crate::desk::Desk;
use crate::one_thread::OneThread;
use atomic_table::{Join, Play, Split, TableRule};
use std::collections::LinkedList;
use std::marker::PhantomData;

/// What the table knows of a seat. No value of it is made.
pub struct View<E> {
    // the history as the seat has seen it
    pub seen: LinkedList<E>,
    // what a seat that was joined to it had seen, until it is looked at
    pub told: LinkedList<E>,
    // the numbers of the calls that it made
    pub made: LinkedList<u32>,
    // its part of one, which is 2^63
    pub part: u64,
    // how many tickets it has out, none or one, and which
    pub tickets: u64,
    pub ticket: u64,
    // whether the slot is out with it, and the history noted last
    pub holds: bool,
    pub hand: LinkedList<E>,
}

/// Callers take turns at the one slot, in the order of their tickets.
pub struct Turns<O> {
    object: PhantomData<O>,
}

impl<O: OneThread> TableRule<Option<Desk<O, O::Entry>>, View<O::Entry>, ()> for Turns<O> {
    ghost use Rattle.shared_object.specs.Turns.{IsKept, newcomer};

    ghost holds = { λ _. IsKept O.stands O.gives };

    ghost first = { λ _. newcomer };
}

/// A ticket is drawn.
pub struct Draw;

impl<S, E> Play<S, View<E>> for Draw {
    ghost use Rattle.shared_object.specs.Turns.{Draws};

    ghost then = { Draws };
}

/// The served word is read, and the slot is taken where the ticket is served.
pub struct See<O> {
    object: PhantomData<O>,
}

impl<O: OneThread> Play<Option<Desk<O, O::Entry>>, View<O::Entry>> for See<O> {
    ghost use Rattle.shared_object.specs.Turns.{Sees};

    ghost then = { Sees O.stands O.gives };
}

/// The length is noted with one more entry.
pub struct NoteMore;

impl<O, E> Play<Option<Desk<O, E>>, View<E>> for NoteMore {
    ghost use Rattle.shared_object.specs.Turns.{NotesMore};

    ghost then = { NotesMore };
}

/// The same length is noted.
pub struct NoteSame;

impl<O, E> Play<Option<Desk<O, E>>, View<E>> for NoteSame {
    ghost use Rattle.shared_object.specs.Turns.{NotesSame};

    ghost then = { NotesSame };
}

/// The desk is at home, and the turn is passed on.
pub struct Pass;

impl<S, E> Play<S, View<E>> for Pass {
    ghost use Rattle.shared_object.specs.Turns.{Passes};

    ghost then = { Passes };
}

/// A seat is split.
pub struct Cut;

impl<E> Split<View<E>> for Cut {
    ghost use Rattle.shared_object.specs.Turns.{kept_part, given_part};

    ghost left = { kept_part };

    ghost right = { given_part };
}

/// A seat takes in another.
pub struct Both;

impl<E> Join<View<E>> for Both {
    ghost use Rattle.shared_object.specs.Turns.{both, spent};

    ghost both = { both };

    ghost spent = { spent };
}

/// Nothing changes, and the seat learns which history it knows, and that it made what it should have.
pub struct Learn;

impl<S, E> Play<S, View<E>> for Learn {
    ghost use Rattle.shared_object.specs.Turns.{learned};

    ghost then = { learned };
}
