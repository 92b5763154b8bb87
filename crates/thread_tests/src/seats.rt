//! One seat, dealt to many callers and gathered again.
ghost use Rattle.std.specs.Prelude.{◌≡◌, ℕ, ◌+◌, ◌<◌, ◌%◌, IfOk, OnOk, vec_len, slice_index_or};
ghost use Rattle.shared_object.specs.Caller.{IsCaller, fresh_half, halved};
ghost use Rattle.shared_object.specs.History.{StartsWith};
ghost use Rattle.thread_tests.specs.Seats.{AreOf, Deals, parts};

use crate::callers::enter_ones;
use crate::counter::Counter;
use shared_object::{Book, NoMemory, Seat};
use std::alloc::{AllocError, Global};
use std::sync::Wait;
use std::thread;
use std::thread::Threads;

/// Halves a seat. `NoMemory` stands here for an odd part too, which no seat of these tests has.
fn halve(book: &Book<Counter>, seat: &mut Seat<Counter>) -> Result<Seat<Counter>, NoMemory>
    requires { seat.old.book ≡ book.now }
    ensures even { IfOk result (λ _. seat.old.part % 2 ≡ 0) }
    ensures ok { IfOk result (λ s. IsCaller s × (s ≡ fresh_half seat.old) × (seat.new ≡ halved seat.old)) }
{
    match book.split(seat) {
        Ok(half) => Ok(half),
        Err(_) => Err(NoMemory),
    }
}

/// Deals a seat to n callers. Its halves are halved again, so that no part of one gets too small.
pub fn deal(
    book: &Book<Counter>,
    mut seat: Seat<Counter>,
    n: u32,
    seats: &mut Vec<Seat<Counter>>,
) -> Result<(), NoMemory>
    requires book { seat.book ≡ book.now }
    requires some { 0 < n }
    ensures { OnOk result (Deals seat n seats.old.items seats.new.items) }
{
    if n == 1 {
        seats.push(seat)?;
        return Ok(());
    }
    let other = halve(book, &mut seat)?;
    deal(book, seat, n - n / 2, seats)?;
    deal(book, other, n / 2, seats)?;
    Ok(())
}

/// Takes in all these seats.
pub fn gather(book: &Book<Counter>, seat: &mut Seat<Counter>, mut seats: Vec<Seat<Counter>>)
    requires seat { seat.old.book ≡ book.now }
    requires seats { AreOf book.now seats.items }
    ensures book { seat.new.book ≡ seat.old.book }
    ensures part { seat.new.part ≡ seat.old.part + parts seats.items }
    ensures later { StartsWith seat.new.seen seat.old.seen }
{
    while let Some(other) = seats.pop() {
        book.join(seat, other);
    }
}

// Each seat, in a thread of its own, enters 1 once.
fn enter_all<R: Threads + Wait + Sync>(
    rt: &R,
    book: &Book<Counter>,
    seats: Vec<Seat<Counter>>,
) -> Result<Vec<Seat<Counter>>, AllocError>
    requires { (i : ℕ) (d : _) → i < vec_len seats → (slice_index_or seats.items i d).book ≡ book.now }
    ensures len { IfOk result (λ v. vec_len v ≡ vec_len seats) }
    ensures each { IfOk result (λ v.
        (i : ℕ) (d : _) → i < vec_len seats → ((slice_index_or v.items i d).book ≡ book.now)
        × ((slice_index_or v.items i d).part ≡ (slice_index_or seats.items i d).part)) }
{
    thread::map_vec(
        rt,
        seats,
        &|seat: Seat<Counter>| -> Seat<Counter>
            requires { seat.book ≡ book.now }
            ensures { (result.book ≡ book.entry.now) × (result.part ≡ seat.part) }
        { enter_ones(rt, book, seat, 1, 1).0 },
    )
}

/// Half of the seat is dealt to n callers, each of which enters 1 once in a thread of its own. The
/// seat gets all of it back.
pub fn round<R: Threads + Wait + Sync>(
    rt: &R,
    alloc: Global,
    book: &Book<Counter>,
    seat: &mut Seat<Counter>,
    n: u32,
) -> Result<(), NoMemory>
    requires book { seat.old.book ≡ book.now }
    requires some { 0 < n }
    ensures book { OnOk result (seat.new.book ≡ seat.old.book) }
    ensures part { OnOk result (seat.new.part ≡ seat.old.part) }
    ensures later { OnOk result (StartsWith seat.new.seen seat.old.seen) }
{
    let half = halve(book, seat)?;
    let mut seats = Vec::new(alloc);
    deal(book, half, n, &mut seats)?;
    let seats = enter_all(rt, book, seats)?;
    gather(book, seat, seats);
    Ok(())
}
