//! The book that threads share.
ghost use Rattle.std.specs.Prelude.{◌≡◌, ℕ, ◌%◌, ◌<◌, ◌≤◌, [], ◌∷◌, length, drop, IfOk, IfErr, OnErr, IsOk, ◌↔◌};
ghost use Rattle.shared_object.specs.Caller.{IsCaller, IsLater, Enters, HasEntry, Looks, Ends, opening, halved, fresh_half, joined, whole, most_entries};
ghost use Rattle.shared_object.specs.History.{StartsWith};

use crate::desk::{Answer, BookFault, Desk, add};
use crate::no_memory::NoMemory;
use crate::one_thread::OneThread;
use crate::rule::{Both, Cut, Turns, View};
use crate::seat::Seat;
use crate::turn::{SERVED, TICKET, give_back, give_more, give_same, learn, take};
use atomic_table::Table;
use std::alloc::Global;
use std::marker::Model;
use std::sync::Wait;

/// The part of a whole seat.
const WHOLE: u64 = 1 << 63;

/// An object and its history, which callers step in turn. Contracts see only which book it is.
#[derive(Drop)]
pub struct Book<O: OneThread> {
    table: Table<Option<Desk<O, O::Entry>>, View<O::Entry>, (), Turns<O>, Global>,
}

impl<O: OneThread> Model for Book<O> {
    ghost use Rattle.std.specs.Prelude.{◌≡◌};
    ghost use Rattle.shared_object.specs.Caller.{BookId};
    ghost use Rattle.atomic_table.specs.Seated.{table_id_coded};

    ghost Value = { BookId };

    ghost coded = { table_id_coded };

    ghost view = { λ b. b.table.shared.table_id };

    ghost invariant = { λ b. (b.table.shared.table_id.words ≡ 3) × (b.table.shared.table_id.slots ≡ 1) };
}

/// How many tickets were drawn whose turn was not passed on.
#[derive(Clone, Copy, Debug, PartialEq, Eq)]
pub struct StillOut(pub u64);

/// The part of a seat, in units of 2^-63 of a whole one. It is odd, so it has no half.
#[derive(Clone, Copy, Debug, PartialEq, Eq)]
pub struct OddPart(pub u64);

impl<O: OneThread> Book<O> {
    /// A book with no entry, and a whole seat: no other seat of it is out. The object is at its
    /// opening state.
    pub fn make(alloc: Global, object: O) -> Result<(Book<O>, Seat<O>), NoMemory>
        requires { O.stands object [] }
        ensures { IfOk result (λ r. r.1 ≡ opening r.0) }
    {
        let desk = Desk {
            object,
            history: Vec::new(alloc),
        };
        let slots = one(alloc, Some(desk))?;
        let Ok((table, token)) = Table::new(alloc, &[0, 0, 0], slots, &()) else {
            return Err(NoMemory);
        };
        let seat = Seat { part: WHOLE, token };
        Ok((Book { table }, seat))
    }

    /// Makes a call, once it is this caller's turn. Memory is taken before the object steps, and
    /// with an error nothing was entered. At `Full` the caller has seen the whole history.
    pub fn enter<R: Wait>(
        &self,
        rt: &R,
        seat: &mut Seat<O>,
        by: u32,
        call: O::Call,
    ) -> Result<Answer<O>, BookFault>
        requires { seat.old.book ≡ self.now }
        ensures sound { IsCaller seat.new }
        ensures ok { IfOk result (λ a. Enters O.gives O.reply by call a.number a.reply seat.old seat.new) }
        ensures entry { IfOk result (λ a.
            HasEntry O.number_of O.by_of O.kept_of seat.new.seen a.number by (O.kept call)) }
        ensures err { OnErr result (IsLater seat.old seat.new) }
        ensures full { (n : ℕ) → result ≡ Err (BookFault.Full n) → Looks O.gives seat.old seat.new
            × (n ≡ length seat.new.seen) × (n ≡ most_entries) }
        ensures at_full { most_entries ≤ length seat.old.seen → result ≡ Err (BookFault.Full most_entries) }
        ensures no_memory { result ≡ Err BookFault.NoMemory → seat.new ≡ seat.old }
    {
        let words = &self.table.shared;
        let mut desk = take(rt, words, &mut seat.token);
        match add(&mut desk, by, call) {
            Ok(answer) => {
                give_more(words, &mut seat.token, desk);
                Ok(answer)
            }
            Err(BookFault::Full(count)) => {
                give_same(words, &mut seat.token, desk);
                Err(BookFault::Full(count))
            }
            Err(BookFault::NoMemory) => {
                give_back(words, &mut seat.token, desk);
                Err(BookFault::NoMemory)
            }
        }
    }

    /// Copies of the entries after the first `from`, once it is this caller's turn.
    pub fn look<R: Wait>(
        &self,
        rt: &R,
        alloc: Global,
        seat: &mut Seat<O>,
        from: u32,
    ) -> Result<Vec<O::Entry>, NoMemory>
        requires seat { seat.old.book ≡ self.now }
        requires from { from ≤ length seat.old.seen }
        ensures sound { IsCaller seat.new }
        ensures ok { IfOk result (λ v. Looks O.gives seat.old seat.new × (v.items ≡ drop from seat.new.seen)) }
        ensures err { OnErr result (seat.new ≡ seat.old) }
    {
        let words = &self.table.shared;
        let desk = take(rt, words, &mut seat.token);
        match copies::<O>(alloc, &desk.history, from as usize) {
            Ok(entries) => {
                give_same(words, &mut seat.token, desk);
                Ok(entries)
            }
            Err(NoMemory) => {
                give_back(words, &mut seat.token, desk);
                Err(NoMemory)
            }
        }
    }

    /// Halves a seat. The new one has seen the same and made nothing. A part of one can be halved
    /// 63 times, so split evenly: halve the halves. An odd part has no half, and then nothing
    /// changes.
    pub fn split(&self, seat: &mut Seat<O>) -> Result<Seat<O>, OddPart>
        requires { seat.old.book ≡ self.now }
        ensures sound { IsCaller seat.new }
        ensures even { IsOk result ↔ (seat.old.part % 2 ≡ 0) }
        ensures ok { IfOk result (λ s. IsCaller s × (s ≡ fresh_half seat.old) × (seat.new ≡ halved seat.old)) }
        ensures err { OnErr result (seat.new ≡ seat.old) }
        ensures odd { IfErr result (λ e. e.0 ≡ seat.old.part) }
    {
        if seat.part % 2 == 1 {
            return Err(OddPart(seat.part));
        }
        let part = seat.part / 2;
        let token = self.table.shared.split_seat::<Cut>(&mut seat.token);
        seat.part -= part;
        Ok(Seat { part, token })
    }

    /// Takes in another seat. The seat has then seen the longer of the two histories, which begins
    /// with both, and has made the calls of both.
    pub fn join(&self, seat: &mut Seat<O>, other: Seat<O>)
        requires seat { seat.old.book ≡ self.now }
        requires other { other.book ≡ self.now }
        ensures sound { IsCaller seat.new }
        ensures joined { seat.new ≡ joined seat.old other }
        ensures both { StartsWith seat.new.seen seat.old.seen × StartsWith seat.new.seen other.seen }
    {
        let words = &self.table.shared;
        let Seat { part, token } = other;
        words.join_seat::<Both>(&mut seat.token, token);
        learn(words, &mut seat.token);
        seat.part += part;
    }

    /// The history. It is never `StillOut` where every seat that was split was joined again. After
    /// `StillOut` the history is gone.
    pub fn close(self, seat: Seat<O>) -> Result<Vec<O::Entry>, StillOut>
        requires { seat.book ≡ self }
        ensures ok { IfOk result (λ h. Ends O.gives seat h.items) }
        ensures whole { seat.part ≡ whole → IsOk result }
        ensures out { IfErr result (λ e. 0 < e.0) }
    {
        let Book { table } = self;
        let Seat { part: _, token } = seat;
        let mut closed = table.close_with(token);
        let ticket = closed.word(TICKET);
        let served = closed.word(SERVED);
        let slot = closed.take(0);
        closed.free();
        if ticket != served {
            return Err(StillOut(ticket.wrapping_sub(served)));
        }
        match slot {
            Some(desk) => Ok(desk.history),
            None => unreachable!(),
        }
    }
}

fn one<T: Drop>(alloc: Global, x: T) -> Result<Vec<T>, NoMemory>
    ensures { IfOk result (λ v. v.items ≡ x ∷ []) }
{
    let mut v = Vec::new(alloc);
    v.push(x)?;
    Ok(v)
}

// Copies of the entries from that place on.
fn copies<O: OneThread>(
    alloc: Global,
    history: &Vec<O::Entry>,
    from: usize,
) -> Result<Vec<O::Entry>, NoMemory>
    requires { from ≤ length history.now.items }
    ensures { IfOk result (λ v. v.items ≡ drop from history.now.items) }
{
    let mut entries = Vec::new(alloc);
    for entry in &history[from..] {
        entries.push(O::copy(entry)?)?;
    }
    Ok(entries)
}
