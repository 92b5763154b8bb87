//! Channels that are final by a time that an entry sets, worked out by hand.

use call_history::{ChannelView, ChannelViews, HeldChain, PaidAmounts, WorldView};
use channel_values::{Chain, Fixed, Listed};
use lasting_node::add_final_by_time;
use node_lines::Effect;
use std::alloc::Global;
use std::test::Fail;

/// The times before and after the entry; the channels that are known, with their deadlines; those of which a chain is held;
/// and those that are final by the entry. A number stands for a channel.
type Row = (
    u64,
    u64,
    &'static [(u8, Option<u64>)],
    &'static [u8],
    &'static [u8],
);

const ROWS: [Row; 10] = [
    // It runs out at its deadline, which is said then, and neither before nor again.
    (8, 9, &[(1, Some(10))], &[1], &[]),
    (9, 10, &[(1, Some(10))], &[1], &[1]),
    (10, 11, &[(1, Some(10))], &[1], &[]),
    // Time passes the deadline at once.
    (0, 99, &[(1, Some(10))], &[1], &[1]),
    // It was answered, which took the deadline away.
    (9, 10, &[(1, None)], &[1], &[]),
    // It was concluded at 9.
    (9, 10, &[(1, Some(9))], &[1], &[]),
    // No chain is held of one of two channels, or of the only one.
    (9, 10, &[(1, Some(10)), (2, Some(10))], &[2], &[2]),
    (9, 10, &[(1, Some(10))], &[], &[]),
    // The ledger knows nothing of the channel of the chain.
    (9, 10, &[(2, Some(10))], &[1], &[]),
    // Two of three run out, and are said in the order of the chains.
    (
        4,
        20,
        &[(1, Some(20)), (2, Some(21)), (3, Some(5))],
        &[3, 2, 1],
        &[3, 1],
    ),
];

fn views_of(alloc: Global, known: &[(u8, Option<u64>)]) -> Result<ChannelViews, Fail> {
    let mut views = ChannelViews::new(alloc);
    for (number, deadline) in known {
        views.push(ChannelView {
            channel: [*number; 32],
            turn: 0,
            deadline: *deadline,
            held: Listed::make(Vec::new(alloc)),
            shown: None,
            settled: None,
            rest: None,
        })?;
    }
    Ok(views)
}

/// A chain without states, which is held of the channel.
fn held_of(alloc: Global, number: u8) -> Result<HeldChain, Fail> {
    let keys = Vec::from_array(alloc, [[1; 56], [2; 56]])?;
    let fixed = Fixed::make(alloc, keys, 1, 1, 10)?;
    let chain = Chain {
        fixed,
        states: Listed::make(Vec::new(alloc)),
        marks: Listed::make(Vec::new(alloc)),
    };
    Ok(HeldChain {
        channel: [number; 32],
        chain,
    })
}

fn chains_of(alloc: Global, numbers: &[u8]) -> Result<Vec<HeldChain>, Fail> {
    let mut chains = Vec::new(alloc);
    for number in numbers {
        let held = held_of(alloc, *number)?;
        chains.push(held)?;
    }
    Ok(chains)
}

fn is_final(effect: &Effect, number: u8) -> bool {
    match effect {
        Effect::Final { channel } => *channel == [number; 32],
        _ => false,
    }
}

fn are_final(effects: &[Effect], numbers: &[u8]) -> bool {
    effects.len() == numbers.len()
        && effects
            .iter()
            .zip(numbers)
            .all(|(effect, number)| is_final(effect, *number))
}

/// Whether what is said of the entry is what is wanted, and nothing else.
fn is_said(alloc: Global, row: Row) -> Result<bool, Fail> {
    let (before, after, known, held, wanted) = row;
    let channels = views_of(alloc, known)?;
    let view = WorldView {
        now: after,
        count: 0,
        channels,
        paid: PaidAmounts::new(alloc),
    };
    let chains = chains_of(alloc, held)?;
    let mut effects = Vec::new(alloc);
    add_final_by_time(&mut effects, before, after, &view, &chains)?;
    Ok(are_final(&effects, wanted))
}

#[test]
fn a_challenge_that_runs_out_is_said_once(rt: HostRuntime) -> Result<(), Fail> {
    for i in 0..ROWS.len() {
        assert!(rt; is_said(rt.alloc(), ROWS[i])?, "row {i}");
    }
    Ok(())
}
