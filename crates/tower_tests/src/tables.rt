//! Towers with two clients. Expected answers were worked out by hand: a client gets a checkpoint for each of its chains
//! whose channel is challenged below that chain's turn.

use crate::rows::{Row, Seen, Way, handed, holds};
use channel_values::SupportFault;
use std::alloc::AllocGlobal;
use std::process::Abort;
use std::sync::Wait;
use std::test::Fail;
use std::thread::Threads;
use watchtower::{HandFault, Tower};

const P: u8 = 7;

const Q: u8 = 8;

/// Each client is answered for its own chains, in the order of admission, and its chains in the order in which it first
/// handed one of their channel. What it hands later comes in place of the earlier chain.
const APART: [Row; 17] = [
    Row::Admit(P, true),
    Row::Admit(Q, true),
    Row::Admit(P, false),
    Row::Hand(P, 1, 6, Ok(())),
    Row::Hand(Q, 1, 4, Ok(())),
    Row::Look(Seen::Challenge(1, 4), &[(P, &[(1, 6)])]),
    Row::Look(Seen::Nothing, &[(P, &[(1, 6)])]),
    Row::Hand(Q, 2, 6, Ok(())),
    Row::Look(Seen::Challenge(2, 4), &[(P, &[(1, 6)]), (Q, &[(2, 6)])]),
    Row::Hand(Q, 1, 6, Ok(())),
    Row::Look(Seen::Nothing, &[(P, &[(1, 6)]), (Q, &[(1, 6), (2, 6)])]),
    Row::Hand(P, 1, 8, Ok(())),
    Row::Look(Seen::Nothing, &[(P, &[(1, 8)]), (Q, &[(1, 6), (2, 6)])]),
    Row::Look(Seen::Checkpoint(1, 8), &[(Q, &[(2, 6)])]),
    Row::Look(Seen::Time(9), &[(Q, &[(2, 6)])]),
    Row::Look(Seen::Time(10), &[]),
    Row::Look(Seen::Nothing, &[]),
];

/// As the first look above, without the hand of P.
const WITHOUT_P: [Row; 4] = [
    Row::Admit(P, true),
    Row::Admit(Q, true),
    Row::Hand(Q, 1, 4, Ok(())),
    Row::Look(Seen::Challenge(1, 4), &[]),
];

/// The client that was admitted last hands first.
const IN_ORDER: [Row; 6] = [
    Row::Admit(Q, true),
    Row::Admit(P, true),
    Row::Hand(P, 1, 6, Ok(())),
    Row::Hand(Q, 1, 8, Ok(())),
    Row::Look(Seen::Challenge(2, 4), &[]),
    Row::Look(Seen::Challenge(1, 4), &[(Q, &[(1, 8)]), (P, &[(1, 6)])]),
];

const UNSIGNED: HandFault = HandFault::NotSupported(SupportFault::Signature(0));

/// What isn't taken changes nothing. All chains of Q are refused.
const REFUSED: [Row; 12] = [
    Row::Hand(P, 1, 6, Err(HandFault::UnknownClient)),
    Row::Admit(P, true),
    Row::Admit(Q, true),
    Row::Hand(P, 1, 6, Ok(())),
    Row::Hand(P, 1, 6, Err(HandFault::NotNewer(6))),
    Row::Hand(P, 1, 4, Err(HandFault::NotNewer(6))),
    Row::Forge(P, 1, 8, Err(UNSIGNED)),
    Row::Forge(P, 1, 4, Err(UNSIGNED)),
    Row::Forge(Q, 1, 6, Err(UNSIGNED)),
    Row::Look(Seen::Challenge(1, 4), &[(P, &[(1, 6)])]),
    Row::Look(Seen::Time(5), &[(P, &[(1, 6)])]),
    Row::Follow(Seen::Time(4), false),
];

const TABLES: [&[Row]; 4] = [&APART, &WITHOUT_P, &IN_ORDER, &REFUSED];

const WAYS: [Way; 4] = [Way::Alone, Way::Shared(0), Way::Shared(3), Way::Beside];

fn all_hold<R: AllocGlobal + Abort + Threads + Wait + Sync>(
    rt: &R,
    way: Way,
    rows: &[Row],
) -> Result<(), Fail> {
    let mut tower = Tower::make(rt.alloc());
    for (place, row) in rows.iter().enumerate() {
        assert!(rt;
            holds(rt, rt.alloc(), &mut tower, way, *row)?,
            "row {place}"
        );
    }
    Ok(())
}

#[test]
fn towers_answer_alike_however_they_look(rt: HostRuntime) -> Result<(), Fail> {
    for way in WAYS {
        for rows in TABLES {
            all_hold(&rt, way, rows)?;
        }
    }
    Ok(())
}

/// A chain of one channel more isn't taken, and a newer one of a channel that it has is.
#[test]
fn a_client_has_chains_of_64_channels(rt: HostRuntime) -> Result<(), Fail> {
    let mut tower = Tower::make(rt.alloc());
    tower.admit([P; 32])?;
    for number in 1..=66 {
        let (nonce, last, wanted) = match number {
            65 => (65, 6, Err(HandFault::TooMany(64))),
            66 => (64, 8, Ok(())),
            _ => (number, 6, Ok(())),
        };
        let answer = handed(rt.alloc(), &mut tower, P, [nonce, nonce], last)?;
        assert_eq!(rt; answer, wanted, "hand {number}");
    }
    Ok(())
}
