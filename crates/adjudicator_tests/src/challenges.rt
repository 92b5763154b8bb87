//! What each call answers, by how the channel stands and by the turn that is given: below the recorded turn, which is
//! 5, at it, and above it.

ghost use Rattle.std.specs.Prelude.{◌<◌, ◌^◌};

use crate::built::{PAIR, chain_of, fixed_of, state_of, states_of};
use adjudicator::{challenge_with, checkpoint_with, conclude_with, refute_with, respond_with};
use call_history::{Refusal, Row};
use channel_values::{
    ByteFault, Chain, Fixed, Listed, Name, Signed, State, channel_name, state_digest,
};
use std::alloc::Global;

/// The time of each call. A challenge stands open for 10.
const NOW: u64 = 50;

/// How a channel stands: without a row, or with the deadline of its row.
type Mode = Option<Option<u64>>;

const OPEN: Mode = Some(None);

/// A deadline that is to come.
const LATER: Mode = Some(Some(51));

/// A deadline that has come.
const PAST: Mode = Some(Some(50));

/// The turn and the deadline of the new row, or the refusal.
type Answer = Result<(u64, Option<u64>), Refusal>;

const IS_FINAL: Answer = Err(Refusal::IsFinal);

const NO_CHALLENGE: Answer = Err(Refusal::NoChallenge);

const STALE: Answer = Err(Refusal::Stale(5));

const NOT_NEWER: Answer = Err(Refusal::NotNewer(5));

const WRONG_TURN: Answer = Err(Refusal::WrongTurn(6));

const BAD_SIGNATURE: Answer = Err(Refusal::BadSignature);

/// Turn 5 is recorded, and the first person challenged with the state of that turn.
fn recorded(challenged: Name, deadline: Option<u64>) -> Row
    ensures { result.turn < 2 ^ 48 }
{
    Row {
        turn: 5,
        deadline,
        state_digest: challenged,
        outcome_digest: [9; 32],
        challenger: 0,
    }
}

fn told(answer: Result<Row, Refusal>) -> Answer {
    match answer {
        Ok(row) => Ok((row.turn, row.deadline)),
        Err(refusal) => Err(refusal),
    }
}

#[derive(Clone, Copy, PartialEq, Eq)]
enum Call {
    Challenge,
    /// The challenger didn't sign.
    Unsigned,
    Checkpoint,
    Conclude,
    /// The state isn't final.
    Early,
}

use Call::{Challenge, Checkpoint, Conclude, Early, Unsigned};

/// The call, how the channel stands, the turn of the only state, which both signed, and the answer.
const BY_CHAIN: [(Call, Mode, u64, Answer); 30] = [
    (Challenge, OPEN, 4, STALE),
    (Challenge, OPEN, 5, Ok((5, Some(60)))),
    (Challenge, OPEN, 6, Ok((6, Some(60)))),
    (Challenge, LATER, 4, STALE),
    (Challenge, LATER, 5, STALE),
    (Challenge, LATER, 6, Ok((6, Some(60)))),
    (Challenge, PAST, 4, IS_FINAL),
    (Challenge, PAST, 5, IS_FINAL),
    (Challenge, PAST, 6, IS_FINAL),
    (Unsigned, LATER, 6, Err(Refusal::BadChallenger)),
    (Checkpoint, OPEN, 4, NOT_NEWER),
    (Checkpoint, OPEN, 5, NOT_NEWER),
    (Checkpoint, OPEN, 6, Ok((6, None))),
    (Checkpoint, LATER, 4, NOT_NEWER),
    (Checkpoint, LATER, 5, NOT_NEWER),
    (Checkpoint, LATER, 6, Ok((6, None))),
    (Checkpoint, PAST, 4, IS_FINAL),
    (Checkpoint, PAST, 5, IS_FINAL),
    (Checkpoint, PAST, 6, IS_FINAL),
    // A channel without a row is open at turn 0.
    (Checkpoint, None, 1, Ok((1, None))),
    (Conclude, OPEN, 4, Ok((4, Some(50)))),
    (Conclude, OPEN, 5, Ok((5, Some(50)))),
    (Conclude, OPEN, 6, Ok((6, Some(50)))),
    (Conclude, LATER, 4, Ok((4, Some(50)))),
    (Conclude, LATER, 5, Ok((5, Some(50)))),
    (Conclude, LATER, 6, Ok((6, Some(50)))),
    (Conclude, PAST, 4, IS_FINAL),
    (Conclude, PAST, 5, IS_FINAL),
    (Conclude, PAST, 6, IS_FINAL),
    (Early, LATER, 6, Err(Refusal::NotFinalState(0))),
];

/// What a call answers. Each chain has two marks, which verify.
fn called(call: Call, row: Option<&Row>, chain: &Chain) -> Result<Row, Refusal> {
    if chain.marks.as_slice().len() != 2 {
        return Err(Refusal::BadSignature);
    }
    match call {
        Challenge => challenge_with(row, NOW, chain, 1, &[], &[true; 3]),
        Unsigned => challenge_with(row, NOW, chain, 1, &[], &[true, true, false]),
        Checkpoint => checkpoint_with(row, NOW, chain, &[true; 2]),
        Conclude | Early => conclude_with(row, NOW, chain, &[true; 2]),
    }
}

fn by_chain(alloc: Global, call: Call, mode: Mode, turn: u64) -> Result<Answer, ByteFault> {
    let states = [(turn, call == Conclude, 0, 5, 3)];
    let chain = chain_of(alloc, PAIR, 2, &states, &[0, 0])?;
    let answer = match mode {
        None => called(call, None, &chain),
        Some(deadline) => called(call, Some(&recorded([8; 32], deadline)), &chain),
    };
    Ok(told(answer))
}

#[test]
fn calls_with_a_chain(rt: HostRuntime) {
    for row in 0..BY_CHAIN.len() {
        let (call, mode, turn, answer) = BY_CHAIN[row];
        assert_eq!(rt;
            by_chain(rt.alloc(), call, mode, turn),
            Ok(answer),
            "row {row}"
        );
    }
}

const OPENED: Answer = Ok((6, None));

/// Whether it is a response and no refutation, the deadline, the turns of the state that is answered and of the new
/// one, whether that is signed, and the answer.
const BY_STATE: [(bool, Option<u64>, u64, u64, bool, Answer); 22] = [
    (true, None, 5, 4, true, NO_CHALLENGE),
    (true, None, 5, 5, true, NO_CHALLENGE),
    (true, None, 5, 6, true, NO_CHALLENGE),
    (true, Some(51), 5, 4, true, WRONG_TURN),
    (true, Some(51), 5, 5, true, WRONG_TURN),
    (true, Some(51), 5, 6, true, OPENED),
    (true, Some(50), 5, 4, true, NO_CHALLENGE),
    (true, Some(50), 5, 5, true, NO_CHALLENGE),
    (true, Some(50), 5, 6, true, NO_CHALLENGE),
    (true, Some(51), 5, 6, false, BAD_SIGNATURE),
    (true, Some(51), 6, 6, true, Err(Refusal::WrongState)),
    (false, None, 5, 4, true, NO_CHALLENGE),
    (false, None, 5, 5, true, NO_CHALLENGE),
    (false, None, 5, 6, true, NO_CHALLENGE),
    (false, Some(51), 5, 4, true, NOT_NEWER),
    (false, Some(51), 5, 5, true, NOT_NEWER),
    (false, Some(51), 5, 6, true, Ok((5, None))),
    (false, Some(50), 5, 4, true, NO_CHALLENGE),
    (false, Some(50), 5, 5, true, NO_CHALLENGE),
    (false, Some(50), 5, 6, true, NO_CHALLENGE),
    (false, Some(51), 5, 6, false, BAD_SIGNATURE),
    // The second person moves to turn 7.
    (false, Some(51), 5, 7, true, Err(Refusal::NotChallengers)),
];

/// The answer to the challenge with the first state, where the second is said to be that.
fn answered(
    is_response: bool,
    deadline: Option<u64>,
    fixed: &Fixed,
    states: &[State],
    next: &Signed,
    signed: bool,
) -> Result<Row, Refusal> {
    let [challenged, from] = states else {
        return Err(Refusal::IsFinal);
    };
    let digest = state_digest(&channel_name(fixed.bytes()), challenged.bytes());
    let row = recorded(digest, deadline);
    if is_response {
        respond_with(Some(&row), NOW, fixed, from, next, &[signed])
    } else {
        refute_with(Some(&row), NOW, fixed, next, &[signed])
    }
}

fn by_state(
    alloc: Global,
    is_response: bool,
    deadline: Option<u64>,
    from: u64,
    turn: u64,
    signed: bool,
) -> Result<Answer, ByteFault> {
    let states = states_of(alloc, &[(5, false, 0, 5, 3), (from, false, 0, 5, 3)])?;
    let fixed = fixed_of(alloc, PAIR, 2)?;
    let next = Signed {
        state: state_of(alloc, &(turn, false, 0, 5, 3))?,
        signature: Listed::make(Vec::new(alloc)),
    };
    let answer = answered(
        is_response,
        deadline,
        &fixed,
        states.as_slice(),
        &next,
        signed,
    );
    Ok(told(answer))
}

#[test]
fn answers_to_a_challenge(rt: HostRuntime) {
    for row in 0..BY_STATE.len() {
        let (is_response, deadline, from, turn, signed, answer) = BY_STATE[row];
        let told = by_state(rt.alloc(), is_response, deadline, from, turn, signed);
        assert_eq!(rt; told, Ok(answer), "row {row}");
    }
}
