//! What is tried before the application, and the mover that the application is given.

use crate::built::{
    AFTER, DATA, EARLY, Fault, LOWERED, OUTCOME, PAIR, Parts, RAISED, TRIPLE, fixed_of, state_of,
};
use channel_values::{ByteFault, Key};
use std::alloc::Global;
use support_rules::{people_of, step};

/// The keys of a channel, and its application.
type Channel = (&'static [Key], u8);

const CONSENSUS: Channel = (PAIR, 0);

const PAYS: Channel = (PAIR, 1);

const FIXED: Channel = (TRIPLE, 2);

/// The channel, the states before and after, and the fault.
const STEPS: [(Channel, Parts, Parts, Fault); 26] = [
    // A final state is followed by final states alone, whatever else is broken.
    (PAYS, (6, true, 0, 5, 3), (7, false, 0, 5, 3), AFTER),
    (PAYS, (6, true, 0, 5, 3), (3, false, 9, 9, 9), AFTER),
    (PAYS, (6, true, 0, 5, 3), (7, true, 0, 5, 3), None),
    // No state below turn 2n is final.
    (PAYS, (2, false, 0, 5, 3), (3, true, 0, 5, 3), EARLY),
    (FIXED, (4, false, 0, 5, 3), (5, true, 9, 6, 3), EARLY),
    (PAYS, (2, true, 0, 5, 3), (3, true, 0, 5, 3), EARLY),
    (PAYS, (3, false, 0, 5, 3), (4, true, 0, 5, 3), None),
    (FIXED, (5, false, 0, 5, 3), (6, true, 0, 5, 3), None),
    // The states below turn 2n repeat the first.
    (PAYS, (0, false, 0, 5, 3), (1, false, 0, 5, 3), None),
    (PAYS, (2, false, 0, 5, 3), (3, false, 0, 5, 3), None),
    (PAYS, (0, false, 0, 5, 3), (1, false, 0, 6, 2), OUTCOME),
    (PAYS, (2, false, 0, 5, 3), (3, false, 0, 6, 2), OUTCOME),
    (PAYS, (2, false, 0, 5, 3), (3, false, 9, 5, 3), DATA),
    (PAYS, (2, false, 0, 5, 3), (3, false, 9, 6, 2), DATA),
    (PAYS, (2, false, 9, 5, 3), (3, false, 9, 5, 3), None),
    // So does a final state.
    (PAYS, (6, false, 0, 5, 3), (7, true, 0, 6, 2), OUTCOME),
    (PAYS, (6, false, 0, 5, 3), (7, true, 9, 6, 2), DATA),
    (PAYS, (6, false, 9, 5, 3), (7, true, 9, 5, 3), None),
    // From turn 2n on the application decides. The mover has the turn of the state after.
    (PAYS, (3, false, 0, 5, 3), (4, false, 0, 4, 4), None),
    (PAYS, (4, false, 0, 5, 3), (5, false, 0, 4, 4), LOWERED),
    (PAYS, (4, false, 0, 5, 3), (5, false, 0, 6, 2), None),
    (PAYS, (5, false, 0, 5, 3), (6, false, 0, 6, 2), RAISED),
    (CONSENSUS, (5, false, 0, 5, 3), (6, false, 0, 6, 2), OUTCOME),
    (FIXED, (6, false, 0, 5, 3), (7, false, 0, 6, 2), OUTCOME),
    (FIXED, (6, false, 0, 5, 3), (7, false, 9, 6, 2), DATA),
    // The turn of the state before isn't looked at.
    (PAYS, (40, false, 0, 5, 3), (8, false, 0, 4, 4), None),
];

fn step_fault(
    alloc: Global,
    channel: Channel,
    from: &Parts,
    to: &Parts,
) -> Result<Fault, ByteFault> {
    let (keys, app) = channel;
    let fixed = fixed_of(alloc, keys, app)?;
    let from = state_of(alloc, from)?;
    let to = state_of(alloc, to)?;
    Ok(step(&fixed, people_of(&fixed).as_slice(), &from, &to).err())
}

#[test]
fn steps(rt: HostRuntime) {
    for row in 0..STEPS.len() {
        let (channel, from, to, fault) = STEPS[row];
        assert_eq!(rt;
            step_fault(rt.alloc(), channel, &from, &to),
            Ok(fault),
            "row {row}"
        );
    }
}
