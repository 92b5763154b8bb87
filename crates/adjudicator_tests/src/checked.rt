//! Challenges with wrong chains: what they answer, and what they answer once their signatures were checked.

use adjudicator::{Adjudicator, CheckedOp};
use call_history::{Call, ChallengeCall, Op, Refusal, Reply};
use channel_values::{
    AssetOutcome, Chain, Dest, Fixed, Item, Listed, Mark, Outcome, Shape, State, StepFault,
    SupportFault,
};
use std::alloc::Global;
use std::test::Fail;
use std::thread::Threads;

/// Two people, whose outcome is fixed.
fn fixed_part(alloc: Global) -> Result<Fixed, Fail> {
    let keys = vec![in alloc; [1; 56], [2; 56]]?;
    let fixed = Fixed::make(alloc, keys, 1, 2, 10)?;
    Ok(fixed)
}

/// A state of this turn, in which a person has the amount.
fn state(alloc: Global, turn: u64, amount: u64) -> Result<State, Fail> {
    let item = Item {
        to: Dest::Person([1; 32]),
        amount,
    };
    let asset = AssetOutcome {
        asset: 0,
        shape: Shape::Allocation(Listed::make(vec![in alloc; item]?)),
    };
    let outcome = Outcome::make(alloc, vec![in alloc; asset]?)?;
    let state = State::make(alloc, turn, false, outcome, Vec::new(alloc))?;
    Ok(state)
}

/// A mark that nobody signed.
fn unsigned(alloc: Global, place: u8) -> Mark {
    Mark {
        place,
        signature: Listed::make(Vec::new(alloc)),
    }
}

/// A challenge with states of these turns and amounts, and a mark of each of the two on the first.
fn challenge(alloc: Global, parts: &[(u64, u64)]) -> Result<Op, Fail> {
    let mut states = Vec::new(alloc);
    for (turn, amount) in parts {
        states.push(state(alloc, *turn, *amount)?)?;
    }
    let marks = vec![in alloc; unsigned(alloc, 0), unsigned(alloc, 0)]?;
    let chain = Chain {
        fixed: fixed_part(alloc)?,
        states: Listed::make(states),
        marks: Listed::make(marks),
    };
    Ok(Op::Call(Call::Challenge(ChallengeCall {
        chain,
        challenger: 0,
        signature: Listed::make(Vec::new(alloc)),
    })))
}

/// The reply to the challenge.
fn reply(alloc: Global, parts: &[(u64, u64)]) -> Result<Reply, Fail> {
    let mut adjudicator = Adjudicator::make(alloc);
    adjudicator.reserve()?;
    Ok(adjudicator.apply(&challenge(alloc, parts)?))
}

/// The reply to the challenge after its signatures were checked.
fn reply_checked<R: Threads + Sync>(
    rt: &R,
    alloc: Global,
    parts: &[(u64, u64)],
) -> Result<Reply, Fail> {
    let mut adjudicator = Adjudicator::make(alloc);
    let op = CheckedOp::make(rt, alloc, challenge(alloc, parts)?)?;
    adjudicator.reserve()?;
    Ok(adjudicator.apply_checked(&op))
}

const CHANGED: SupportFault = SupportFault::Step(1, StepFault::Outcome);

/// The turns and amounts of a chain's states, and its first break. Of the last chain neither mark was signed.
const WRONG: [(&[(u64, u64)], SupportFault); 4] = [
    (&[(0, 5)], SupportFault::Length),
    (&[(1, 5), (0, 5)], SupportFault::Turn(1)),
    (&[(0, 5), (1, 4)], CHANGED),
    (&[(0, 5), (1, 5)], SupportFault::Signature(0)),
];

#[test]
fn wrong_chains(rt: HostRuntime) -> Result<(), Fail> {
    for (parts, fault) in WRONG {
        let wanted = Reply::No(Refusal::NotSupported(fault));
        assert_eq!(rt; reply(rt.alloc(), parts)?, wanted);
    }
    Ok(())
}

#[test]
fn wrong_chains_that_were_checked(rt: HostRuntime) -> Result<(), Fail> {
    for (parts, fault) in WRONG {
        let wanted = Reply::No(Refusal::NotSupported(fault));
        assert_eq!(rt; reply_checked(&rt, rt.alloc(), parts)?, wanted);
    }
    Ok(())
}
