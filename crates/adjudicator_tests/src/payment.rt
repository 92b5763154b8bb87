//! Payments of two people, and channels whose outcome is fixed.

use crate::built::{A, B, Body, DATA, Fault, LOWERED, OUTCOME, PEOPLE, Pays, RAISED, state_with};
use channel_values::{ByteFault, Dest, State};
use std::alloc::Global;
use support_rules::app_step;

/// Somebody else.
const S: Dest = Dest::Person([9; 32]);

/// The channel that has the first person's name.
const C: Dest = Dest::Channel([1; 32]);

/// What a state says.
#[derive(Clone, Copy)]
enum Says {
    /// The items of asset 1.
    Items(Pays<'static>),
    /// In asset 4, beside those before in asset 1, this much for the first person, and this for the second.
    Given(u64, u64),
    /// In asset 4, beside those, a guarantee for a target of this name, and its list.
    List(u8, &'static [Dest]),
    /// Those in asset 2.
    Moved,
    /// Those, and one byte of data.
    Data,
}

use Says::{Data, Given, Items, List, Moved};

/// Who moves: the first person or the second in a payment channel, or the last of four where the outcome is fixed.
#[derive(Clone, Copy)]
enum Mover {
    First,
    Second,
    Fixed,
}

use Mover::{First, Fixed, Second};

/// The first person has 5, the second 3, and somebody else 2.
const BEFORE: Pays = &[(A, 5), (B, 3), (S, 2)];

const PLAIN: Says = Items(BEFORE);

const TURNED: Says = Items(&[(B, 3), (A, 5), (S, 2)]);

const TWO: Says = Items(&[(A, 5), (B, 3)]);

const ALONE: Says = Items(&[(A, 5), (S, 2)]);

const PROMISED: Says = List(7, &[A, B]);

/// Who moves, the states before and after, and the fault.
const PAYMENTS: [(Mover, Says, Says, Fault); 42] = [
    (First, PLAIN, PLAIN, None),
    (First, PLAIN, Items(&[(A, 4), (B, 4), (S, 2)]), None),
    (First, PLAIN, Items(&[(A, 0), (B, 8), (S, 2)]), None),
    (Second, PLAIN, Items(&[(A, 6), (B, 2), (S, 2)]), None),
    (Second, TURNED, Items(&[(B, 0), (A, 8), (S, 2)]), None),
    // The mover's item rises and the other's falls: which stands first.
    (First, PLAIN, Items(&[(A, 6), (B, 2), (S, 2)]), RAISED),
    (First, TURNED, Items(&[(B, 2), (A, 6), (S, 2)]), LOWERED),
    (Second, PLAIN, Items(&[(A, 4), (B, 4), (S, 2)]), LOWERED),
    (Second, TURNED, Items(&[(B, 4), (A, 4), (S, 2)]), RAISED),
    // One of the two changes alone.
    (First, PLAIN, Items(&[(A, 6), (B, 3), (S, 2)]), RAISED),
    (First, PLAIN, Items(&[(A, 5), (B, 2), (S, 2)]), LOWERED),
    (First, PLAIN, Items(&[(A, 4), (B, 3), (S, 2)]), OUTCOME),
    (First, PLAIN, Items(&[(A, 5), (B, 4), (S, 2)]), OUTCOME),
    // Both rise, and both fall.
    (First, PLAIN, Items(&[(A, 6), (B, 4), (S, 2)]), RAISED),
    (First, PLAIN, Items(&[(A, 4), (B, 2), (S, 2)]), LOWERED),
    // Somebody else's item changes.
    (First, PLAIN, Items(&[(A, 4), (B, 3), (S, 3)]), OUTCOME),
    (First, PLAIN, Items(&[(A, 6), (B, 2), (S, 1)]), OUTCOME),
    // Another order, an item less or more, and other destinations.
    (First, PLAIN, TURNED, OUTCOME),
    (First, PLAIN, TWO, OUTCOME),
    (First, TWO, PLAIN, OUTCOME),
    (First, PLAIN, Items(&[(A, 5), (S, 3), (B, 2)]), OUTCOME),
    (First, PLAIN, Items(&[(C, 5), (B, 3), (S, 2)]), OUTCOME),
    (First, ALONE, Items(&[(A, 4), (S, 2)]), OUTCOME),
    // Data, and other assets.
    (First, Data, PLAIN, DATA),
    (First, PLAIN, Data, DATA),
    (First, Data, Moved, DATA),
    (First, PLAIN, Moved, OUTCOME),
    (First, PLAIN, Given(1, 1), OUTCOME),
    (First, Given(1, 1), PLAIN, OUTCOME),
    (First, Given(2, 1), Given(1, 2), None),
    (First, Given(1, 2), Given(2, 1), RAISED),
    (First, Given(1, 2), Given(1, 1), LOWERED),
    (First, Given(2, 1), Given(1, 1), OUTCOME),
    // Guarantees stay as they are.
    (First, PROMISED, PROMISED, None),
    (First, PROMISED, List(8, &[A, B]), OUTCOME),
    (First, PROMISED, List(7, &[B, A]), OUTCOME),
    (First, PROMISED, List(7, &[A]), OUTCOME),
    (First, PROMISED, Given(1, 1), OUTCOME),
    // Where the outcome is fixed nothing changes.
    (Fixed, Given(2, 1), Given(2, 1), None),
    (Fixed, Given(2, 1), Given(1, 2), OUTCOME),
    (Fixed, PLAIN, Data, DATA),
    (Fixed, Data, Moved, DATA),
];

fn saying(alloc: Global, says: Says) -> Result<State, ByteFault> {
    let before = Body::Items(BEFORE);
    match says {
        Items(pays) => state_with(alloc, 7, false, &[(1, Body::Items(pays))], &[]),
        Given(first, second) => {
            let pays = [(A, first), (B, second)];
            let more = Body::Items(&pays);
            state_with(alloc, 7, false, &[(1, before), (4, more)], &[])
        }
        List(target, list) => {
            let more = Body::List([target; 32], list);
            state_with(alloc, 7, false, &[(1, before), (4, more)], &[])
        }
        Moved => state_with(alloc, 7, false, &[(2, before)], &[]),
        Data => state_with(alloc, 7, false, &[(1, before)], &[1]),
    }
}

fn fault_of(mover: Mover, from: &State, to: &State) -> Fault {
    let step = match mover {
        First => app_step(1, &[PEOPLE[0], PEOPLE[1]], 0, from, to),
        Second => app_step(1, &[PEOPLE[0], PEOPLE[1]], 1, from, to),
        Fixed => app_step(2, &PEOPLE, 3, from, to),
    };
    step.err()
}

fn pay_fault(alloc: Global, mover: Mover, from: Says, to: Says) -> Result<Fault, ByteFault> {
    let from = saying(alloc, from)?;
    let to = saying(alloc, to)?;
    Ok(fault_of(mover, &from, &to))
}

#[test]
fn payments(rt: HostRuntime) {
    for row in 0..PAYMENTS.len() {
        let (mover, from, to, fault) = PAYMENTS[row];
        assert_eq!(rt;
            pay_fault(rt.alloc(), mover, from, to),
            Ok(fault),
            "row {row}"
        );
    }
}
