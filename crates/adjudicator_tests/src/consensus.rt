//! The moves of the consensus application.

use crate::built::{
    A, AFTER, B, Body, DATA, Fault, OUTCOME, PEOPLE, PROPOSAL, VOTES, outcome_of, state_with,
};
use channel_values::{ByteFault, Outcome, State};
use std::alloc::Global;
use support_rules::{app_step, vote_bytes, votes_of};

/// The votes that are wanted, what the proposal gives the first person, and what the outcome does.
pub(super) type Ballot = (u8, u64, u64);

/// An outcome of one asset that gives the first person this much, and the second 3.
pub(super) fn giving(alloc: Global, amount: u64) -> Result<Outcome, ByteFault> {
    let pays = [(A, amount), (B, 3)];
    outcome_of(alloc, &[(0, Body::Items(&pays))])
}

fn data_of(alloc: Global, votes: u8, proposal: u64) -> Result<Vec<u8>, ByteFault> {
    let proposal = giving(alloc, proposal)?;
    let data = vote_bytes(alloc, votes, &proposal)?;
    Ok(data)
}

pub(super) fn voting(
    alloc: Global,
    turn: u64,
    is_final: bool,
    ballot: Ballot,
) -> Result<State, ByteFault> {
    let (votes, proposal, now) = ballot;
    let data = data_of(alloc, votes, proposal)?;
    let pays = [(A, now), (B, 3)];
    state_with(alloc, turn, is_final, &[(0, Body::Items(&pays))], &data)
}

/// How many move, two to four, the state before, the state after, and the fault.
const MOVES: [(usize, Ballot, Ballot, Fault); 33] = [
    // Passes.
    (3, (0, 0, 5), (0, 0, 5), None),
    (3, (0, 0, 5), (0, 0, 6), OUTCOME),
    // Proposals.
    (2, (0, 0, 5), (1, 7, 5), None),
    (3, (0, 0, 5), (2, 7, 5), None),
    (3, (0, 0, 5), (2, 5, 5), None),
    (4, (0, 0, 5), (3, 7, 5), None),
    (3, (0, 0, 5), (2, 7, 7), OUTCOME),
    (3, (0, 0, 5), (1, 7, 5), VOTES),
    (4, (0, 0, 5), (2, 7, 5), VOTES),
    (3, (0, 0, 5), (1, 7, 7), VOTES),
    // Votes.
    (3, (2, 7, 5), (1, 7, 5), None),
    (4, (3, 7, 5), (2, 7, 5), None),
    (3, (2, 7, 5), (1, 8, 5), PROPOSAL),
    (3, (2, 7, 5), (1, 7, 7), OUTCOME),
    (3, (2, 7, 5), (1, 8, 6), PROPOSAL),
    (3, (2, 7, 5), (2, 7, 5), VOTES),
    (3, (2, 7, 5), (2, 8, 6), VOTES),
    (4, (3, 7, 5), (1, 7, 5), VOTES),
    (3, (1, 7, 5), (2, 7, 5), VOTES),
    (3, (1, 7, 5), (1, 7, 5), VOTES),
    (2, (1, 7, 5), (1, 8, 5), VOTES),
    // Last votes.
    (3, (1, 7, 5), (0, 0, 7), None),
    (2, (1, 7, 5), (0, 0, 7), None),
    (3, (1, 7, 5), (0, 0, 6), OUTCOME),
    (3, (2, 7, 5), (0, 0, 7), OUTCOME),
    // Vetoes.
    (3, (1, 7, 5), (0, 0, 5), None),
    (3, (2, 7, 5), (0, 0, 5), None),
    (4, (3, 7, 5), (0, 0, 5), None),
    (3, (2, 7, 5), (0, 0, 6), OUTCOME),
    // Votes of so many as there are people are no data.
    (3, (3, 7, 5), (2, 7, 5), DATA),
    (3, (0, 0, 5), (3, 7, 5), DATA),
    (2, (2, 7, 5), (1, 7, 5), DATA),
    (4, (0, 0, 5), (4, 7, 6), DATA),
];

fn fault_of(n: usize, from: &State, to: &State) -> Fault {
    if n < 2 || n > 4 {
        return AFTER;
    }
    app_step(0, &PEOPLE[..n], 1, from, to).err()
}

fn move_fault(alloc: Global, n: usize, from: Ballot, to: Ballot) -> Result<Fault, ByteFault> {
    let from = voting(alloc, 7, false, from)?;
    let to = voting(alloc, 7, false, to)?;
    Ok(fault_of(n, &from, &to))
}

#[test]
fn moves(rt: HostRuntime) {
    for row in 0..MOVES.len() {
        let (n, from, to, fault) = MOVES[row];
        assert_eq!(rt; move_fault(rt.alloc(), n, from, to), Ok(fault), "row {row}");
    }
}

/// Data of two, and whether they are any.
const BYTES: [(&[u8], bool); 7] = [
    // No votes written out, and no proposal.
    (&[0], false),
    (&[1], false),
    // A proposal that is cut, and one with a byte too much.
    (&[1, 1], false),
    (&[1, 0, 0], false),
    // Two votes of two.
    (&[2, 0], false),
    (&[255, 0], false),
    // One vote for the outcome of no assets.
    (&[1, 0], true),
];

#[test]
fn data_of_two(rt: HostRuntime) {
    for row in 0..BYTES.len() {
        let (data, is_data) = BYTES[row];
        assert_eq!(rt; votes_of(2, data).is_some(), is_data, "row {row}");
    }
}

/// The votes among `n` in data of two votes for a proposal, and whether the rest spells that.
fn read_among(alloc: Global, n: usize) -> Result<Option<(u8, bool)>, ByteFault> {
    let proposal = giving(alloc, 7)?;
    let data = vote_bytes(alloc, 2, &proposal)?;
    Ok(match votes_of(n, &data) {
        Some((votes, bytes)) => Some((votes, bytes == proposal.bytes())),
        None => None,
    })
}

#[test]
fn votes_are_read(rt: HostRuntime) {
    for (n, read) in [(3, Some((2, true))), (2, None)] {
        assert_eq!(rt; read_among(rt.alloc(), n), Ok(read), "among {n}");
    }
}
