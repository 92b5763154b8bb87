//! Balances worked out by hand.

use asset_holder::Holdings;
use call_history::Refusal;
use channel_values::{Dest, Name, NoMemory};
use std::alloc::Global;
use std::test::Fail;

const A: Name = [1; 32];

const C: Name = [7; 32];

const D: Name = [8; 32];

const MOST: u64 = u64::MAX;

fn deposit(
    holdings: &mut Holdings,
    channel: Name,
    asset: u32,
    expected: u64,
    amount: u64,
) -> Result<Result<u64, Refusal>, NoMemory> {
    holdings.reserve()?;
    Ok(holdings.deposit(channel, asset, expected, amount))
}

/// Whether the channel holds as much, and so it was moved.
fn pay(
    holdings: &mut Holdings,
    from: Name,
    to: Dest,
    asset: u32,
    amount: u64,
) -> Result<bool, NoMemory> {
    holdings.reserve()?;
    if amount > holdings.held(&from, asset) {
        return Ok(false);
    }
    holdings.move_funds(from, to, asset, amount);
    Ok(true)
}

/// What C holds, D holds, A was paid, and was deposited, of an asset.
fn balances(holdings: &Holdings, asset: u32) -> [u64; 4] {
    [
        holdings.held(&C, asset),
        holdings.held(&D, asset),
        holdings.paid(&A, asset),
        holdings.deposited(asset),
    ]
}

/// What is asked, and the answer. All of it is of asset 0.
#[derive(Clone, Copy)]
enum Step {
    /// A deposit into a channel: what it expects, and how much it brings.
    Deposit(Name, u64, u64, Result<u64, Refusal>),
    /// A payment out of C: to whom, how much, and whether C held as much.
    Pay(Dest, u64, bool),
}

/// Whether the step is answered as it says.
fn has_answered(holdings: &mut Holdings, step: &Step) -> Result<bool, NoMemory> {
    match step {
        Step::Deposit(channel, expected, amount, wanted) => {
            let answer = deposit(holdings, *channel, 0, *expected, *amount)?;
            Ok(answer == *wanted)
        }
        Step::Pay(to, amount, wanted) => {
            let paid = pay(holdings, C, *to, 0, *amount)?;
            Ok(paid == *wanted)
        }
    }
}

/// How many steps are answered as they say, and the balances of assets 0 and 1 then.
fn played(alloc: Global, steps: &[Step]) -> Result<(usize, [u64; 4], [u64; 4]), NoMemory> {
    let mut holdings = Holdings::make(alloc);
    let mut count: usize = 0;
    for one in steps {
        if has_answered(&mut holdings, one)? {
            count = count.saturating_add(1);
        }
    }
    Ok((count, balances(&holdings, 0), balances(&holdings, 1)))
}

/// The second deposit expects what the first brought.
const DEPOSITS: [Step; 3] = [
    Step::Deposit(C, 0, 5, Ok(5)),
    Step::Deposit(C, 5, 3, Ok(8)),
    Step::Deposit(D, 0, 4, Ok(4)),
];

/// Deposits of nothing, of one that expects more than is held, and of more than there may be of an asset.
const REFUSED: [Step; 4] = [
    Step::Deposit(C, 9, 0, Err(Refusal::Zero)),
    Step::Deposit(C, 1, 1, Err(Refusal::Underheld(0))),
    Step::Deposit(C, 0, MOST - 1, Ok(MOST - 1)),
    Step::Deposit(D, 0, 2, Err(Refusal::AssetFull(MOST - 1))),
];

/// C pays A, D and itself.
const PAYMENTS: [Step; 4] = [
    Step::Deposit(C, 0, 10, Ok(10)),
    Step::Pay(Dest::Person(A), 3, true),
    Step::Pay(Dest::Channel(D), 5, true),
    Step::Pay(Dest::Channel(C), 2, true),
];

/// Steps, their count, and the balances of asset 0 then.
const PLAYS: [(&[Step], usize, [u64; 4]); 3] = [
    (&DEPOSITS, 3, [8, 4, 0, 12]),
    (&REFUSED, 4, [MOST - 1, 0, 0, MOST - 1]),
    (&PAYMENTS, 4, [2, 5, 3, 10]),
];

#[test]
fn deposits_and_payments_move_funds(rt: HostRuntime) -> Result<(), Fail> {
    for (steps, count, balances) in PLAYS {
        assert_eq!(rt; played(rt.alloc(), steps)?, (count, balances, [0; 4]));
    }
    Ok(())
}
