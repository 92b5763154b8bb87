//! The channels whose deadline has come.

use adjudicator::{Deadlines, Name, NoMemory};
use std::alloc::Global;
use std::test::Fail;

const A: Name = [1; 32];

const B: Name = [2; 32];

const C: Name = [3; 32];

/// The channel has the deadline, in place of another.
fn put(deadlines: &mut Deadlines, channel: Name, deadline: u64) -> Result<(), NoMemory> {
    deadlines.reserve()?;
    deadlines.remove(&channel);
    deadlines.insert(deadline, channel);
    Ok(())
}

/// Whether at that time these are due of C with 10, B with 9 and A with 10, where perhaps B was removed.
fn are_due(
    alloc: Global,
    is_removed: bool,
    now: u64,
    wanted: &[(u64, Name)],
) -> Result<bool, NoMemory> {
    let mut deadlines = Deadlines::make(alloc);
    put(&mut deadlines, C, 10)?;
    put(&mut deadlines, B, 9)?;
    put(&mut deadlines, A, 10)?;
    if is_removed {
        deadlines.remove(&B);
    }
    Ok(deadlines.due(now) == wanted)
}

/// Whether there was a checkpoint of B, the time, and the rows that are due.
const DUE: [(bool, u64, &[(u64, Name)]); 4] = [
    (false, 8, &[]),
    (false, 9, &[(9, B)]),
    (true, 9, &[]),
    (true, 10, &[(10, A), (10, C)]),
];

#[test]
fn channels_are_due_by_deadline_and_name(rt: HostRuntime) -> Result<(), Fail> {
    for (is_removed, now, wanted) in DUE {
        assert!(rt; are_due(rt.alloc(), is_removed, now, wanted)?, "at {now}");
    }
    Ok(())
}
