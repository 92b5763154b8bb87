//! Chains with signatures of real keys.

use crate::built::{Parts, fixed_of, states_of};
use channel_values::{
    Chain, Fixed, Listed, Mark, State, SupportFault, channel_name, state_digest, state_message,
};
use lms_signatures::Signer;
use std::alloc::Global;
use std::test::Fail;
use support_rules::{check_signatures, supports};

const STATES: [Parts; 2] = [(0, false, 0, 5, 3), (1, false, 0, 5, 3)];

fn signer_of(alloc: Global, person: u8) -> Option<Signer> {
    Signer::make(alloc, [person; 32], [person; 16], 5).ok()
}

/// The signer's mark at the place, with its signature of the state.
fn mark_of(signer: &mut Signer, place: u8, fixed: &Fixed, state: &State) -> Option<Mark> {
    let message = state_message(&state_digest(&channel_name(fixed.bytes()), state.bytes()));
    let signature = signer.sign(&message).ok()?;
    Some(Mark {
        place,
        signature: Listed::make(signature),
    })
}

/// The first person's mark on the first state, and the second's on the second, with its signature of the state at
/// `shown`.
fn marks_of(
    one: &mut Signer,
    two: &mut Signer,
    fixed: &Fixed,
    states: &[State],
    shown: usize,
) -> Option<[Mark; 2]> {
    let first = mark_of(one, 0, fixed, states.get(0)?)?;
    let second = mark_of(two, 1, fixed, states.get(shown)?)?;
    Some([first, second])
}

fn chain_by(alloc: Global, one: &mut Signer, two: &mut Signer, shown: usize) -> Option<Chain> {
    let fixed = fixed_of(alloc, &[one.public(), two.public()], 1).ok()?;
    let states = states_of(alloc, &STATES).ok()?;
    let marks = marks_of(one, two, &fixed, states.as_slice(), shown)?;
    let marks = Vec::from_array(alloc, marks).ok()?;
    Some(Chain {
        fixed,
        states,
        marks: Listed::make(marks),
    })
}

fn signed_chain(alloc: Global, shown: usize) -> Option<Chain> {
    let mut one = signer_of(alloc, 1)?;
    let mut two = signer_of(alloc, 2)?;
    chain_by(alloc, &mut one, &mut two, shown)
}

fn supported(alloc: Global, shown: usize) -> Option<Result<u64, SupportFault>> {
    let chain = signed_chain(alloc, shown)?;
    Some(supports(&chain))
}

#[test]
fn a_chain_that_both_signed(rt: HostRuntime) {
    for (shown, answer) in [(1, Ok(1)), (0, Err(SupportFault::Signature(1)))] {
        assert_eq!(rt; supported(rt.alloc(), shown), Some(answer), "shown {shown}");
    }
}

#[test]
fn marks_are_checked_side_by_side(rt: HostRuntime) -> Result<(), Fail> {
    let chain = signed_chain(rt.alloc(), 0).ok_or("no chain")?;
    let verified = check_signatures(&rt, rt.alloc(), &chain)?;
    assert!(rt; verified.as_slice() == [true, false].as_slice());
    Ok(())
}
