//! What a caller does with its seat.

ghost use Rattle.std.specs.Prelude.{◌≡◌, ℕ, ◌≤◌, ◌<◌, ◌^◌, [], ◌∷◌, OnOk, IfOk, length, drop};
ghost use Rattle.network_rounds.specs.Working.{Works, given_at};

use crate::fault::{RoundFault, fault_of};
use adjudicator::{Adjudicator, CheckedOp};
use call_history::{Call, Entry, Op};
use shared_object::{Book, Seat};
use std::alloc::Global;
use std::sync::Wait;
use std::thread::Threads;

/// The entries after the first `from`.
pub(crate) fn look<R: Wait>(
    rt: &R,
    alloc: Global,
    book: &Book<Adjudicator>,
    seat: &mut Seat<Adjudicator>,
    from: u32,
) -> Result<Vec<Entry>, RoundFault>
    requires book { seat.old.book ≡ book.now }
    requires from { from ≤ length seat.old.seen }
    ensures book { seat.new.book ≡ seat.old.book }
    ensures works { OnOk result (Works [] seat.old seat.new) }
    ensures few { OnOk result (length seat.new.seen < 2 ^ 32) }
    ensures entries { IfOk result (λ v. v.items ≡ drop from seat.new.seen) }
{
    match book.look(rt, alloc, seat, from) {
        Ok(entries) => Ok(entries),
        Err(_) => Err(RoundFault::NoMemory),
    }
}

/// Enters a call, whose signatures are checked before.
pub(crate) fn enter<R: Threads + Wait + Sync>(
    rt: &R,
    alloc: Global,
    book: &Book<Adjudicator>,
    seat: &mut Seat<Adjudicator>,
    by: u32,
    call: Call,
) -> Result<(), RoundFault>
    requires { seat.old.book ≡ book.now }
    ensures book { seat.new.book ≡ seat.old.book }
    ensures works { OnOk result ((seen : ℕ) → seen ≤ length seat.old.seen
        → Works (given_at by seen (call ∷ [])) seat.old seat.new) }
{
    let Ok(checked) = CheckedOp::make(rt, alloc, Op::Call(call)) else {
        return Err(RoundFault::NoMemory);
    };
    match book.enter(rt, seat, by, checked) {
        Ok(_) => Ok(()),
        Err(fault) => Err(fault_of(fault)),
    }
}

/// Enters calls, one after another.
pub(crate) fn enter_all<R: Threads + Wait + Sync>(
    rt: &R,
    alloc: Global,
    book: &Book<Adjudicator>,
    seat: &mut Seat<Adjudicator>,
    by: u32,
    mut calls: Vec<Call>,
) -> Result<(), RoundFault>
    requires { seat.old.book ≡ book.now }
    ensures book { OnOk result (seat.new.book ≡ seat.old.book) }
    ensures works { OnOk result ((seen : ℕ) → seen ≤ length seat.old.seen
        → Works (given_at by seen calls.items) seat.old seat.new) }
{
    while !calls.is_empty() {
        let call = calls.remove(0);
        enter(rt, alloc, book, seat, by, call)?;
    }
    Ok(())
}
