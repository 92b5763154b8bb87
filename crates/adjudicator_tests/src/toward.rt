//! Moves toward an outcome.

use crate::consensus::{Ballot, giving, voting};
use channel_values::{ByteFault, State};
use std::alloc::Global;
use support_rules::move_toward;

/// The turn and the ballot of what was signed last.
type Own = Option<(u64, Ballot)>;

/// Three people move toward what gives the first 7. The turn and the ballot of the latest state, what was signed
/// last, and the ballot that is wanted at turn 9.
const MOVES: [(u64, Ballot, Own, Option<Ballot>); 12] = [
    // A vote, and the last vote.
    (8, (2, 7, 5), None, Some((1, 7, 5))),
    (8, (1, 7, 5), None, Some((0, 0, 7))),
    // Another proposal.
    (8, (2, 6, 5), None, Some((0, 0, 5))),
    (8, (1, 6, 7), Some((7, (0, 0, 7))), Some((0, 0, 7))),
    // Proposals.
    (8, (0, 0, 5), None, Some((2, 7, 5))),
    (8, (0, 0, 5), Some((6, (0, 0, 7))), Some((2, 7, 5))),
    // The outcome is there: a pass, unless it was signed without votes.
    (8, (0, 0, 7), None, Some((0, 0, 7))),
    (8, (0, 0, 7), Some((6, (2, 7, 5))), Some((0, 0, 7))),
    (8, (0, 0, 7), Some((6, (1, 6, 7))), Some((0, 0, 7))),
    (8, (0, 0, 7), Some((6, (0, 0, 7))), None),
    // No turn is left, or the votes are none.
    (0xffff_ffff_ffff, (0, 0, 5), None, None),
    (8, (3, 7, 5), None, None),
];

fn is_same(next: &Option<State>, wanted: &State) -> bool {
    match next {
        Some(state) => state.bytes() == wanted.bytes(),
        None => false,
    }
}

fn is_next(
    alloc: Global,
    latest: &State,
    own: Option<&State>,
    wanted: Option<Ballot>,
) -> Result<bool, ByteFault> {
    let target = giving(alloc, 7)?;
    let next = move_toward(alloc, 3, &target, latest, own)?;
    match wanted {
        None => Ok(next.is_none()),
        Some(ballot) => Ok(is_same(&next, &voting(alloc, 9, false, ballot)?)),
    }
}

fn is_wanted(
    alloc: Global,
    latest: &State,
    own: Own,
    wanted: Option<Ballot>,
) -> Result<bool, ByteFault> {
    match own {
        None => is_next(alloc, latest, None, wanted),
        Some((turn, ballot)) => {
            let own = voting(alloc, turn, false, ballot)?;
            is_next(alloc, latest, Some(&own), wanted)
        }
    }
}

fn is_moved(
    alloc: Global,
    turn: u64,
    latest: Ballot,
    own: Own,
    wanted: Option<Ballot>,
) -> Result<bool, ByteFault> {
    let latest = voting(alloc, turn, false, latest)?;
    is_wanted(alloc, &latest, own, wanted)
}

#[test]
fn moves(rt: HostRuntime) {
    for row in 0..MOVES.len() {
        let (turn, latest, own, wanted) = MOVES[row];
        assert_eq!(rt;
            is_moved(rt.alloc(), turn, latest, own, wanted),
            Ok(true),
            "row {row}"
        );
    }
}

fn is_last(alloc: Global) -> Result<bool, ByteFault> {
    let last = voting(alloc, 8, true, (0, 0, 5))?;
    is_next(alloc, &last, None, None)
}

#[test]
fn nothing_follows_a_final_state(rt: HostRuntime) {
    assert_eq!(rt; is_last(rt.alloc()), Ok(true));
}
