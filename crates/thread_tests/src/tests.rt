ghost use Rattle.std.specs.Prelude.{◌≡◌, false};

use crate::callers::{Tally, two_callers};
use crate::counter::{Addition, Counter};
use crate::seats::round;
use shared_object::{Book, BookFault, Seat};
use std::test::Fail;

fn zero() -> Counter
    ensures { (result.sum ≡ 0) × (result.refuses ≡ false) }
{
    Counter {
        sum: 0,
        refuses: false,
    }
}

// Whether the entries are numbered 1, 2, 3 .. and the sum of each is its number.
fn counts_up(history: &[Addition]) -> bool {
    (1u64..).zip(history).all(|(k, entry)| u64::from(entry.number) == k && entry.sum == k)
}

#[test]
fn two_threads_enter_a_hundred_times_each(rt: HostRuntime) -> Result<(), Fail> {
    let Ok((book, mut seat)) = Book::make(rt.alloc(), zero()) else {
        panic!(rt; "no memory")
    };
    let Some((one, two)) = two_callers(&rt, &book, &mut seat, 100) else {
        panic!(rt; "no memory")
    };
    assert!(rt; one.entered == 100 && one.rises && two.entered == 100 && two.rises);
    let Ok(history) = book.close(seat) else {
        panic!(rt; "still out")
    };
    assert!(rt; history.len() == 200 && counts_up(&history));
    assert!(rt; history.iter().filter(|entry| entry.by == 1).count() == 100);
    assert!(rt; history.iter().filter(|entry| entry.by == 2).count() == 100);
    Ok(())
}

#[test]
fn a_caller_finds_its_entry(rt: HostRuntime) -> Result<(), Fail> {
    let Ok((book, mut seat)) = Book::make(rt.alloc(), zero()) else {
        panic!(rt; "no memory")
    };
    let Ok(answer) = book.enter(&rt, &mut seat, 7, 5) else {
        panic!(rt; "no memory")
    };
    assert!(rt; answer.number == 1 && answer.reply == 5);
    let Ok(seen) = book.look(&rt, rt.alloc(), &mut seat, 0) else {
        panic!(rt; "no memory")
    };
    assert!(rt; seen.len() == 1 && seen[0].number == 1 && seen[0].by == 7 && seen[0].amount == 5);
    Ok(())
}

#[test]
fn closes_while_an_idle_seat_is_out(rt: HostRuntime) -> Result<(), Fail> {
    let Ok((book, mut seat)) = Book::make(rt.alloc(), zero()) else {
        panic!(rt; "no memory")
    };
    let Ok(_idle) = book.split(&mut seat) else {
        panic!(rt; "no half")
    };
    assert!(rt; book.enter(&rt, &mut seat, 1, 1).is_ok());
    let Ok(history) = book.close(seat) else {
        panic!(rt; "still out")
    };
    assert!(rt; history.len() == 1);
    Ok(())
}

#[test]
fn enters_nothing_without_memory(rt: HostRuntime) -> Result<(), Fail> {
    let counter = Counter {
        sum: 0,
        refuses: true,
    };
    let Ok((book, mut seat)) = Book::make(rt.alloc(), counter) else {
        panic!(rt; "no memory")
    };
    match book.enter(&rt, &mut seat, 1, 1) {
        Err(BookFault::NoMemory) => {}
        _ => panic!(rt; "entered"),
    }
    let Ok(history) = book.close(seat) else {
        panic!(rt; "still out")
    };
    assert!(rt; history.is_empty());
    Ok(())
}

#[test]
fn ninety_six_callers_share_one_seat(rt: HostRuntime) -> Result<(), Fail> {
    let Ok((book, mut seat)) = Book::make(rt.alloc(), zero()) else {
        panic!(rt; "no memory")
    };
    assert!(rt; round(&rt, rt.alloc(), &book, &mut seat, 32).is_ok());
    assert!(rt; round(&rt, rt.alloc(), &book, &mut seat, 96).is_ok());
    let Ok(history) = book.close(seat) else {
        panic!(rt; "still out")
    };
    assert!(rt; history.len() == 128 && counts_up(&history));
    Ok(())
}
