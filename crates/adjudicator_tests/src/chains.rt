//! What chains support, for given truth values of their marks.

use crate::built::{PAIR, Parts, TRIPLE, chain_of};
use channel_values::SupportFault::{Length, Signature, Step, Turn};
use channel_values::{ByteFault, Chain, Key, StepFault, SupportFault};
use std::alloc::Global;
use support_rules::{supports, supports_with};

type Answer = Result<u64, SupportFault>;

/// The states, the places of the marks, the participant whose mark doesn't verify, and what is supported.
type Case = (&'static [Parts], &'static [u8], usize, Answer);

/// Every mark verifies.
const ALL: usize = 255;

/// A place that is no state's.
const NOWHERE: u8 = 255;

// States of a payment channel of two. A moves to even turns, and pays; B moves to odd turns.
const S0: Parts = (0, false, 0, 5, 3);

const S1: Parts = (1, false, 0, 5, 3);

const T1: Parts = (1, false, 0, 6, 2);

const S3: Parts = (3, false, 0, 5, 3);

const S4: Parts = (4, false, 0, 4, 4);

const T4: Parts = (4, false, 0, 6, 2);

const S5: Parts = (5, false, 0, 4, 4);

const S6: Parts = (6, false, 0, 3, 5);

const F6: Parts = (6, true, 0, 4, 4);

const F7: Parts = (7, true, 0, 4, 4);

const S7: Parts = (7, false, 0, 4, 4);

const PAIRS: [Case; 34] = [
    // Each signed its own state.
    (&[S0, S1], &[0, 1], ALL, Ok(1)),
    (&[S3, S4], &[1, 0], ALL, Ok(4)),
    (&[S4, S5], &[0, 1], ALL, Ok(5)),
    (&[S5, S6], &[1, 0], ALL, Ok(6)),
    (&[S5, F6], &[1, 0], ALL, Ok(6)),
    (&[F6, F7], &[0, 1], ALL, Ok(7)),
    // One state that both signed, and states that one signed although the other moved to them.
    (&[S4], &[0, 0], ALL, Ok(4)),
    (&[F6], &[0, 0], ALL, Ok(6)),
    (&[S1], &[0, 0], ALL, Ok(1)),
    (&[S4, S5], &[1, 1], ALL, Ok(5)),
    (&[S3, S4], &[1, 1], ALL, Ok(4)),
    // Too few or too many states or marks, before all else.
    (&[], &[0, 0], ALL, Err(Length)),
    (&[S3, S4, S5], &[1, 2], ALL, Err(Length)),
    (&[S3, S5, S4], &[1, 2], ALL, Err(Length)),
    (&[S4], &[0], ALL, Err(Length)),
    (&[S4], &[], ALL, Err(Length)),
    (&[S4], &[0, 0, 0], ALL, Err(Length)),
    (&[S5, S4], &[1], ALL, Err(Length)),
    // A gap, a turn twice, and turns that fall, before steps and marks.
    (&[S4, S6], &[1, NOWHERE], ALL, Err(Turn(1))),
    (&[S4, S4], &[0, 1], ALL, Err(Turn(1))),
    (&[S5, S4], &[1, 0], ALL, Err(Turn(1))),
    (&[S1, S0], &[1, 0], ALL, Err(Turn(1))),
    // The second hasn't had a turn yet.
    (&[S0], &[0, 0], ALL, Err(Length)),
    // A state that doesn't follow, before marks.
    (&[S0, T1], &[0, 1], ALL, Err(Step(1, StepFault::Outcome))),
    (&[S3, T4], &[1, 0], ALL, Err(Step(1, StepFault::Raised))),
    (
        &[F6, S7],
        &[NOWHERE, 1],
        0,
        Err(Step(1, StepFault::AfterFinal)),
    ),
    // A mark that verifies nothing: the least participant's.
    (&[S4], &[0, 0], 0, Err(Signature(0))),
    (&[S4], &[0, 0], 1, Err(Signature(1))),
    (&[S4, S5], &[NOWHERE, 1], 1, Err(Signature(0))),
    // A mark on no state, and one on a state before its participant's last turn.
    (&[S4], &[0, 1], ALL, Err(Signature(1))),
    (&[S4], &[0, NOWHERE], ALL, Err(Signature(1))),
    (&[S5], &[NOWHERE, 0], ALL, Err(Signature(0))),
    (&[S4, S5], &[0, 0], ALL, Err(Signature(1))),
    (&[S5, S6], &[0, 0], ALL, Err(Signature(0))),
];

// States of a channel of three whose outcome is fixed.
const U1: Parts = (1, false, 0, 5, 3);

const U2: Parts = (2, false, 0, 5, 3);

const U3: Parts = (3, false, 0, 5, 3);

const U7: Parts = (7, false, 0, 5, 3);

const U8: Parts = (8, false, 0, 5, 3);

const V8: Parts = (8, false, 0, 6, 3);

const U9: Parts = (9, false, 0, 5, 3);

const V9: Parts = (9, false, 0, 6, 3);

const U10: Parts = (10, false, 0, 5, 3);

const TRIPLES: [Case; 12] = [
    (&[U7, U8, U9], &[2, 0, 1], ALL, Ok(9)),
    (&[U8, U9], &[1, 0, 0], ALL, Ok(9)),
    (&[U2], &[0, 0, 0], ALL, Ok(2)),
    (&[U1], &[0, 0, 0], ALL, Err(Length)),
    (&[U1, U2, U3], &[2, 0, 1], ALL, Ok(3)),
    (&[U7, U8, U9, U10], &[2, 3, 1], ALL, Err(Length)),
    (&[U7, U8, U10], &[2, 2, 1], ALL, Err(Turn(2))),
    (
        &[U7, V8, V9],
        &[2, 0, 1],
        ALL,
        Err(Step(1, StepFault::Outcome)),
    ),
    (
        &[U7, U8, V9],
        &[2, 0, 1],
        ALL,
        Err(Step(2, StepFault::Outcome)),
    ),
    // The third's last turn is 8.
    (&[U7, U8, U9], &[2, 0, 0], ALL, Err(Signature(2))),
    (&[U7, U8, U9], &[2, 0, 1], 1, Err(Signature(1))),
    (&[U7, U8, U9], &[1, 0, 0], 1, Err(Signature(0))),
];

/// What a chain of at most four marks supports that all verify, but for that of the participant at `unverified`.
fn answer_of(chain: &Chain, unverified: usize) -> Answer {
    let marks = chain.marks.as_slice().len();
    if marks > 4 {
        return Err(Length);
    }
    let verified = [
        unverified != 0,
        unverified != 1,
        unverified != 2,
        unverified != 3,
    ];
    supports_with(chain, &verified[..marks])
}

fn supported(alloc: Global, keys: &[Key], app: u8, case: Case) -> Result<Answer, ByteFault> {
    let (states, places, unverified, _) = case;
    let chain = chain_of(alloc, keys, app, states, places)?;
    Ok(answer_of(&chain, unverified))
}

#[test]
fn chains_of_two(rt: HostRuntime) {
    for row in 0..PAIRS.len() {
        let case = PAIRS[row];
        assert_eq!(rt;
            supported(rt.alloc(), PAIR, 1, case),
            Ok(case.3),
            "row {row}"
        );
    }
}

#[test]
fn chains_of_three(rt: HostRuntime) {
    for row in 0..TRIPLES.len() {
        let case = TRIPLES[row];
        assert_eq!(rt;
            supported(rt.alloc(), TRIPLE, 2, case),
            Ok(case.3),
            "row {row}"
        );
    }
}

fn unsigned(alloc: Global) -> Result<Answer, ByteFault> {
    let chain = chain_of(alloc, PAIR, 1, &[S4], &[0, 0])?;
    Ok(supports(&chain))
}

#[test]
fn unsigned_chain(rt: HostRuntime) {
    assert_eq!(rt; unsigned(rt.alloc()), Ok(Err(Signature(0))));
}
