//! What a caller holds.

use crate::one_thread::OneThread;
use crate::turn::Token;
use std::marker::Model;

/// A caller's token. Contracts see it as a `Caller`: the book that it is of, the entries that the
/// caller has seen, the numbers of the calls that it made, and its part of one.
#[derive(Drop)]
pub struct Seat<O: OneThread> {
    pub(crate) part: u64,
    pub(crate) token: Token<O, O::Entry>,
}

impl<O: OneThread> Model for Seat<O> {
    ghost use Rattle.shared_object.specs.Caller.{Caller};

    ghost Value = { Caller O.Entry };

    ghost use Rattle.shared_object.specs.Turn.{caller_of, IsAtRest};

    ghost view = { λ s. caller_of s.part s.token };

    ghost invariant = { λ s. IsAtRest s.part s.token };
}
