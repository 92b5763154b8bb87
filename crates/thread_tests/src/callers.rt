//! Callers that enter at the same time.
ghost use Rattle.std.specs.Prelude.{◌≡◌, ◌+◌, length, IfSome};
ghost use Rattle.shared_object.specs.Caller.{IsCaller};
ghost use Rattle.shared_object.specs.History.{StartsWith};

use crate::counter::Counter;
use shared_object::{Book, Seat};
use std::sync::Wait;
use std::thread::{Threads, join};

/// What a caller was told of its calls.
#[derive(Drop)]
pub struct Tally {
    /// How many were entered.
    pub entered: u32,
    /// The number of the last one, or 0.
    pub last: u32,
    /// Whether each number was greater than the one before.
    pub rises: bool,
}

/// Enters 1 that many times.
pub fn enter_ones<R: Wait>(
    rt: &R,
    book: &Book<Counter>,
    mut seat: Seat<Counter>,
    by: u32,
    times: u32,
) -> (Seat<Counter>, Tally)
    requires { seat.book ≡ book.now }
    ensures seat { (result.0.book ≡ seat.book) × (result.0.part ≡ seat.part) }
    ensures later { StartsWith result.0.seen seat.seen }
    ensures entered { length result.0.made ≡ length seat.made + result.1.entered }
{
    let mut tally = Tally {
        entered: 0,
        last: 0,
        rises: true,
    };
    for _ in 0..times {
        if let Ok(answer) = book.enter(rt, &mut seat, by, 1) {
            tally.entered += 1;
            tally.rises = tally.rises && tally.last < answer.number;
            tally.last = answer.number;
        }
    }
    (seat, tally)
}

/// Two callers, each in a thread of its own and with a split seat, enter 1 that many times.
pub fn two_callers<R: Threads + Wait + Sync>(
    rt: &R,
    book: &Book<Counter>,
    seat: &mut Seat<Counter>,
    times: u32,
) -> Option<(Tally, Tally)>
    requires { seat.old.book ≡ book.now }
    ensures sound { IfSome result (λ r. IsCaller seat.new) }
    ensures seat { IfSome result (λ r. (seat.new.book ≡ seat.old.book) × (seat.new.part ≡ seat.old.part)
        × StartsWith seat.new.seen seat.old.seen) }
    ensures entered { IfSome result (λ r. length seat.new.made ≡ length seat.old.made + r.0.entered + r.1.entered) }
{
    let one = book.split(seat).ok()?;
    let two = book.split(seat).ok()?;
    let (a, b) = join(
        rt,
        || -> (Seat<Counter>, Tally)
            requires { one.book ≡ book.now }
            ensures seat { (result.0.book ≡ one.book) × (result.0.part ≡ one.part) }
            ensures later { StartsWith result.0.seen one.seen }
            ensures entered { length result.0.made ≡ length one.made + result.1.entered }
        { enter_ones(rt, book, one, 1, times) },
        || -> (Seat<Counter>, Tally)
            requires { two.book ≡ book.now }
            ensures seat { (result.0.book ≡ two.book) × (result.0.part ≡ two.part) }
            ensures later { StartsWith result.0.seen two.seen }
            ensures entered { length result.0.made ≡ length two.made + result.1.entered }
        { enter_ones(rt, book, two, 2, times) },
    );
    book.join(seat, a.0);
    book.join(seat, b.0);
    Some((a.1, b.1))
}
