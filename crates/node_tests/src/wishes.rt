//! A payment's outcome that was worked out by hand, and what a node that knows nothing says.

use crate::messages::{amounts, key_of, state_of};
use call_history::NodeRefusal;
use channel_values::{ByteFault, Dest, NoMemory, person_name};
use node_decisions::{Payment, handle, pay_refusal, signable, state_of as paid_state};
use node_knowledge::Known;
use std::alloc::Global;
use std::test::Fail;

/// What both have after a payment of the first, where they have 5 and 3.
fn paid_first(alloc: Global, amount: u64) -> Result<Result<Option<(u64, u64)>, ByteFault>, Fail> {
    let people = (key_of(alloc, 1)?, key_of(alloc, 2)?);
    let before = state_of(alloc, &people, 1, (5, 3))?;
    let payment = Payment {
        from: Dest::Person(person_name(&people.0)),
        to: Dest::Person(person_name(&people.1)),
        asset: 0,
        amount,
    };
    match paid_state(alloc, 2, &payment, Some(before.outcome())) {
        Ok(state) => Ok(Ok(amounts(&state))),
        Err(fault) => Ok(Err(fault)),
    }
}

/// Where the sum is too large for an amount there is no such state.
#[test]
fn a_payment_moves_an_amount(rt: HostRuntime) -> Result<(), Fail> {
    let cases = [
        (2, Ok(Some((3, 5)))),
        (u64::MAX, Err(ByteFault::TotalTooLarge(0))),
    ];
    for (amount, wanted) in cases {
        assert_eq!(rt; paid_first(rt.alloc(), amount)?, wanted, "{amount}");
    }
    Ok(())
}

/// Of a channel that it doesn't know: why no payment is made, whether no state is signed, and what no bytes are.
fn unknown(alloc: Global) -> Result<(Option<NodeRefusal>, bool, Option<NodeRefusal>), NoMemory> {
    let mut known = Known::make(alloc, [0; 56]);
    let payment = pay_refusal(&known, 8, 0, &[1; 32], 0, 1)?;
    let is_silent = signable(&known, &[1; 32])?.is_none();
    let message = handle(&mut known, &[])?;
    Ok((payment, is_silent, message))
}

#[test]
fn what_is_unknown_is_refused(rt: HostRuntime) -> Result<(), Fail> {
    let wanted = (
        Some(NodeRefusal::UnknownChannel),
        true,
        Some(NodeRefusal::BadBytes),
    );
    assert_eq!(rt; unknown(rt.alloc())?, wanted);
    Ok(())
}
