//! Looks at the histories of disputes.

use crate::pair::{Act, pair_of};
use call_history::{Call, Entry, HeldChain, Refusal, Reply, top_turn};
use network::Watcher;
use std::alloc::{AllocGlobal, Global};
use std::process::Abort;
use std::test::Fail;

/// The nonce of the entry's channel, the entry, and the nonces and turns of the checkpoints that the look after it
/// answers.
type Row = (u64, Act, Reply, &'static [(u64, u64)]);

const SIXTH: &[(u64, u64)] = &[(1, 6)];

/// What a participant holds that has the states of a channel from one turn to another.
fn held_of(alloc: Global, nonce: u64, first: u64, last: u64) -> Result<HeldChain, Fail> {
    let pair = pair_of(alloc, nonce);
    let channel = pair.channel()?;
    let chain = pair.chain(first, last, &[])?;
    Ok(HeldChain { channel, chain })
}

/// The channel's nonce and the turn of a checkpoint.
fn checkpoint(call: &Call) -> Option<(u64, u64)> {
    match call {
        Call::Checkpoint { chain } => {
            Some((chain.fixed.nonce(), top_turn(chain.states.as_slice())))
        }
        _ => None,
    }
}

fn are_checkpoints(calls: &[Call], wanted: &[(u64, u64)]) -> bool {
    calls.len() == wanted.len()
        && calls
            .iter()
            .zip(wanted)
            .all(|(call, turn)| checkpoint(call) == Some(*turn))
}

/// Whether a look after the entry answers what is wanted.
fn answers(
    alloc: Global,
    watcher: &mut Watcher,
    held: &[HeldChain],
    row: Row,
) -> Result<bool, Fail> {
    let (nonce, act, reply, wanted) = row;
    let op = pair_of(alloc, nonce).op(act)?;
    let entry = Entry {
        number: 1,
        by: 0,
        op,
        reply,
    };
    let entries = vec![in alloc; entry]?;
    let calls = watcher.look(&entries, held)?;
    Ok(are_checkpoints(&calls, wanted))
}

/// A watcher with these chains answers each entry as its row says.
fn all_are_answered(
    rt: &(impl AllocGlobal + Abort),
    held: &[HeldChain],
    rows: &[Row],
) -> Result<(), Fail> {
    let watcher = &mut Watcher::make(rt.alloc());
    for (place, row) in rows.iter().enumerate() {
        assert!(rt; answers(rt.alloc(), watcher, held, *row)?, "row {place}");
    }
    Ok(())
}

/// The holder of the fifth and sixth state answers the challenge, until a checkpoint at turn 6.
const STALE: [Row; 3] = [
    (1, Act::Challenge(3, 4), Reply::Until(10), SIXTH),
    (1, Act::Checkpoint(5, 6), Reply::Opened(6), &[]),
    (1, Act::Challenge(3, 4), Reply::No(Refusal::Stale(6)), &[]),
];

#[test]
fn a_stale_challenge_is_answered_until_it_is_over(rt: HostRuntime) -> Result<(), Fail> {
    let held = [held_of(rt.alloc(), 1, 5, 6)?];
    all_are_answered(&rt, &held, &STALE)
}

/// The holder of the third and fourth state doesn't.
const HELD: [Row; 2] = [
    (1, Act::Challenge(3, 4), Reply::Until(10), &[]),
    (1, Act::Checkpoint(5, 6), Reply::Opened(6), &[]),
];

#[test]
fn a_challenge_at_the_held_turn_is_not_stale(rt: HostRuntime) -> Result<(), Fail> {
    let held = [held_of(rt.alloc(), 1, 3, 4)?];
    all_are_answered(&rt, &held, &HELD)
}

/// The second person's challenge is refuted, entered again, and responded to, with refused answers between.
const ANSWERED: [Row; 9] = [
    (1, Act::Challenge(3, 4), Reply::Until(10), SIXTH),
    (1, Act::Refute(3), Reply::No(Refusal::NotNewer(4)), SIXTH),
    (1, Act::Refute(6), Reply::No(Refusal::NotChallengers), SIXTH),
    (1, Act::Refute(5), Reply::Opened(4), &[]),
    (1, Act::Challenge(3, 4), Reply::Until(10), SIXTH),
    (1, Act::Respond(3, 5), Reply::No(Refusal::WrongState), SIXTH),
    (
        1,
        Act::Respond(4, 6),
        Reply::No(Refusal::WrongTurn(5)),
        SIXTH,
    ),
    (1, Act::Respond(4, 5), Reply::Opened(5), &[]),
    (1, Act::Respond(4, 5), Reply::No(Refusal::NoChallenge), &[]),
];

#[test]
fn refutes_and_responds_end_a_challenge(rt: HostRuntime) -> Result<(), Fail> {
    let held = [held_of(rt.alloc(), 1, 5, 6)?];
    all_are_answered(&rt, &held, &ANSWERED)
}

const OVER: [Row; 3] = [
    (1, Act::Challenge(3, 4), Reply::Until(10), SIXTH),
    (1, Act::Time(9), Reply::Now(9), SIXTH),
    (1, Act::Time(10), Reply::Now(10), &[]),
];

#[test]
fn nothing_answers_a_challenge_that_ran_out(rt: HostRuntime) -> Result<(), Fail> {
    let held = [held_of(rt.alloc(), 1, 5, 6)?];
    all_are_answered(&rt, &held, &OVER)
}

const THREE: [Row; 2] = [
    (1, Act::Challenge(3, 4), Reply::Until(10), SIXTH),
    (3, Act::Challenge(3, 4), Reply::Until(10), &[(3, 6), (1, 6)]),
];

#[test]
fn stale_challenges_are_answered_in_the_order_of_the_chains(rt: HostRuntime) -> Result<(), Fail> {
    let alloc = rt.alloc();
    let third = held_of(alloc, 3, 5, 6)?;
    let second = held_of(alloc, 2, 5, 6)?;
    let held = [third, second, held_of(alloc, 1, 5, 6)?];
    all_are_answered(&rt, &held, &THREE)
}
