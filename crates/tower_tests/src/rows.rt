//! Rows of what a tower is asked and what it answers.

use crate::signed_chains::{chain, chain_signed_as, challenge};
use call_history::{Call, Entry, Op, Reply, top_turn};
use std::alloc::Global;
use std::sync::Wait;
use std::test::Fail;
use std::thread::Threads;
use watchtower::{Answer, HandFault, Tower};

/// A client, by the byte that its name is made of, and the nonces and turns of its checkpoints.
pub(super) type Told = (u8, &'static [(u64, u64)]);

pub(super) type Handed = Result<(), HandFault>;

/// How a tower looks: alone, with so many workers, or with its own number of them.
#[derive(Clone, Copy)]
pub(super) enum Way {
    Alone,
    Shared(usize),
    Beside,
}

/// What is entered: nothing, a call with the chain of a channel's nonce and of a last turn, or a time.
#[derive(Clone, Copy)]
pub(super) enum Seen {
    Nothing,
    /// Until time 10.
    Challenge(u64, u64),
    Checkpoint(u64, u64),
    Time(u64),
}

/// What a tower is asked, and last what it answers.
#[derive(Clone, Copy)]
pub(super) enum Row {
    /// A client, and whether it is new.
    Admit(u8, bool),
    /// A client, and its chain's nonce and last turn.
    Hand(u8, u64, u64, Handed),
    /// The same, with a chain that was signed as if it were of the channel with nonce 9.
    Forge(u8, u64, u64, Handed),
    Follow(Seen, bool),
    Look(Seen, &'static [Told]),
}

fn entry(op: Op, reply: Reply) -> Entry {
    Entry {
        number: 1,
        by: 0,
        op,
        reply,
    }
}

fn checkpoint(alloc: Global, nonce: u64, last: u64) -> Option<Entry> {
    let chain = chain(alloc, nonce, last)?;
    let op = Op::Call(Call::Checkpoint { chain });
    Some(entry(op, Reply::Opened(last)))
}

fn entries(alloc: Global, seen: Seen) -> Option<Vec<Entry>> {
    let one = match seen {
        Seen::Nothing => return Some(Vec::new(alloc)),
        Seen::Challenge(nonce, last) => challenge(alloc, nonce, last)?,
        Seen::Checkpoint(nonce, last) => checkpoint(alloc, nonce, last)?,
        Seen::Time(to) => entry(Op::Time(to), Reply::Now(to)),
    };
    vec![in alloc; one].ok()
}

fn looked<R: Threads + Wait + Sync>(
    rt: &R,
    tower: &mut Tower,
    way: Way,
    entries: &[Entry],
) -> Option<Vec<Answer>> {
    if !tower.can_follow(entries) {
        return None;
    }
    match way {
        Way::Alone => tower.look(entries).ok(),
        Way::Shared(workers) => tower.look_shared(rt, entries, workers).ok(),
        Way::Beside => tower.look_beside(rt, entries).ok(),
    }
}

/// The channel's nonce and the turn of a checkpoint.
fn checked(call: &Call) -> Option<(u64, u64)> {
    match call {
        Call::Checkpoint { chain } => {
            Some((chain.fixed.nonce(), top_turn(chain.states.as_slice())))
        }
        _ => None,
    }
}

fn are_calls(calls: &[Call], wanted: &[(u64, u64)]) -> bool {
    calls.len() == wanted.len()
        && calls
            .iter()
            .zip(wanted)
            .all(|(call, turn)| checked(call) == Some(*turn))
}

fn is_answer(answer: &Answer, wanted: Told) -> bool {
    answer.0 == [wanted.0; 32] && are_calls(&answer.1, wanted.1)
}

fn are_answers(answers: &[Answer], wanted: &[Told]) -> bool {
    answers.len() == wanted.len()
        && answers
            .iter()
            .zip(wanted)
            .all(|(answer, told)| is_answer(answer, *told))
}

/// What a hand of the chain answers. The chain was signed as if it were of the channel with the second nonce.
pub(super) fn handed(
    alloc: Global,
    tower: &mut Tower,
    client: u8,
    nonces: [u64; 2],
    last: u64,
) -> Result<Handed, Fail> {
    let chain = chain_signed_as(alloc, nonces, last).ok_or("no chain")?;
    Ok(tower.hand(&[client; 32], chain))
}

fn follows(alloc: Global, tower: &Tower, seen: Seen) -> Result<bool, Fail> {
    let entries = entries(alloc, seen).ok_or("no entries")?;
    Ok(tower.can_follow(&entries))
}

fn answers<R: Threads + Wait + Sync>(
    rt: &R,
    alloc: Global,
    tower: &mut Tower,
    way: Way,
    seen: Seen,
    wanted: &[Told],
) -> Result<bool, Fail> {
    let entries = entries(alloc, seen).ok_or("no entries")?;
    let told = looked(rt, tower, way, &entries).ok_or("no answer")?;
    Ok(are_answers(&told, wanted))
}

/// Whether a tower that looks this way answers as the row says.
pub(super) fn holds<R: Threads + Wait + Sync>(
    rt: &R,
    alloc: Global,
    tower: &mut Tower,
    way: Way,
    row: Row,
) -> Result<bool, Fail> {
    match row {
        Row::Admit(client, is_new) => Ok(tower.admit([client; 32])? == is_new),
        Row::Hand(client, nonce, last, wanted) => {
            Ok(handed(alloc, tower, client, [nonce, nonce], last)? == wanted)
        }
        Row::Forge(client, nonce, last, wanted) => {
            Ok(handed(alloc, tower, client, [nonce, 9], last)? == wanted)
        }
        Row::Follow(seen, wanted) => Ok(follows(alloc, tower, seen)? == wanted),
        Row::Look(seen, wanted) => answers(rt, alloc, tower, way, seen, wanted),
    }
}
