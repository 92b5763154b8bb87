//! Outcomes that are aimed at.

use crate::built::{A, B, Body, CHANNEL, I, JOINT, TO_A, TO_B, outcome_of};
use channel_values::{ByteFault, NoMemory, Outcome, Shape};
use funding_plans::{Aim, AimKind, Changed, Child, Terms};
use std::alloc::Global;

const CHILD: Child = Child {
    asset: 0,
    name: CHANNEL,
    first: A,
    second: B,
    a: 400,
    b: 100,
};

const TERMS: Terms = Terms {
    asset: 0,
    channel: CHANNEL,
    first: A,
    middle: I,
    second: B,
    total: 500,
};

/// The amounts of two or three items.
type Amounts = Option<[u64; 3]>;

fn amounts(outcome: &Outcome) -> Amounts {
    let [first] = outcome.assets() else {
        return None;
    };
    let Shape::Allocation(items) = &first.shape else {
        return None;
    };
    match items.as_slice() {
        [a, b] => Some([a.amount, b.amount, 0]),
        [a, b, c] => Some([a.amount, b.amount, c.amount]),
        _ => None,
    }
}

fn moved(
    alloc: Global,
    base: &Outcome,
    is_up: bool,
    a: u64,
    b: u64,
) -> Result<Option<Outcome>, NoMemory> {
    let child = Child { a, b, ..CHILD };
    Aim::make(AimKind::Moved(Changed { child, base, is_up })).build(alloc)
}

/// The amounts of what went up, and of that after it went down by other amounts.
fn and_down(alloc: Global, higher: &Outcome) -> Result<[Amounts; 2], ByteFault> {
    let up = amounts(higher);
    match moved(alloc, higher, false, 350, 150)? {
        Some(lower) => Ok([up, amounts(&lower)]),
        None => Ok([up, None]),
    }
}

/// The same of a ledger in which both have 1000.
fn up_and_down(alloc: Global) -> Result<[Amounts; 2], ByteFault> {
    let base = outcome_of(alloc, Body::Items(&[(TO_A, 1000), (TO_B, 1000)]))?;
    match moved(alloc, &base, true, 400, 100)? {
        Some(higher) => and_down(alloc, &higher),
        None => Ok([None, None]),
    }
}

#[test]
fn a_ledger_goes_up_and_down(rt: HostRuntime) {
    let wanted = [Some([600, 900, 500]), Some([950, 1050, 0])];
    assert_eq!(rt; up_and_down(rt.alloc()), Ok(wanted));
}

#[derive(Clone, Copy)]
enum Joint {
    Together,
    Apart(u64, u64),
    Guaranteed,
}

/// An outcome of the joint channel or for it, the total, whether it is built and then is its own spelling, and the
/// amounts of what is built.
const BUILT: [(Joint, u64, bool, Amounts); 4] = [
    (Joint::Together, 500, true, Some([500, 500, 0])),
    (Joint::Apart(350, 150), 500, true, Some([350, 150, 500])),
    (Joint::Guaranteed, 500, true, None),
    // A total of which two are more than an outcome can have.
    (Joint::Together, u64::MAX, false, None),
];

fn aim_at(joint: Joint, total: u64) -> AimKind<'static> {
    let terms = Terms { total, ..TERMS };
    match joint {
        Joint::Together => AimKind::Together(terms),
        Joint::Apart(a, b) => AimKind::Apart(terms, a, b),
        Joint::Guaranteed => AimKind::Guaranteed(terms, JOINT, A),
    }
}

fn built(alloc: Global, joint: Joint, total: u64) -> Result<(bool, Amounts), NoMemory> {
    let aim = Aim::make(aim_at(joint, total));
    match aim.build(alloc)? {
        None => Ok((false, None)),
        Some(outcome) => Ok((aim.is_spelled(outcome.bytes()), amounts(&outcome))),
    }
}

#[test]
fn the_joint_channel_goes_together_and_apart(rt: HostRuntime) {
    for row in 0..BUILT.len() {
        let (joint, total, is_built, amounts) = BUILT[row];
        assert_eq!(rt;
            built(rt.alloc(), joint, total),
            Ok((is_built, amounts)),
            "row {row}"
        );
    }
}
