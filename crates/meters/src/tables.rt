//! Measures the adjudicator's tables.
//!
//! COUNT deposits go to as many channels. COUNT transfers are each of what was deposited just before, out of one final
//! channel.

use crate::print_time;
use crate::spelled::{Fixed, conclude_bytes, outcome_bytes};
use adjudicator::Adjudicator;
use anyhow::{Result, anyhow, bail};
use call_bytes::read_call;
use call_history::{Call, DepositCall, Op, Reply, TransferCall};
use channel_values::{Name, channel_name, read_outcome};
use std::alloc::Global;
use std::time::Instant;

/// The name of a number.
fn name(number: u64) -> Name {
    let mut name = [0; 32];
    name[..8].copy_from_slice(&number.to_be_bytes());
    name
}

/// A deposit of 1 of asset 0.
fn deposit(channel: Name) -> Op {
    Op::Call(Call::Deposit(DepositCall {
        channel,
        asset: 0,
        expected: 0,
        amount: 1,
    }))
}

/// Whether the op is accepted.
fn enters(adjudicator: &mut Adjudicator, op: &Op) -> bool {
    match adjudicator.reserve() {
        Ok(()) => !matches!(adjudicator.apply(op), Reply::No(_)),
        Err(_) => false,
    }
}

/// Whether a deposit to each of so many channels is accepted.
fn deposits(adjudicator: &mut Adjudicator, count: u64) -> bool {
    let mut all = true;
    for number in 0..count {
        all &= enters(adjudicator, &deposit(name(number)));
    }
    all
}

/// Whether so many deposits are accepted, each with a payment after it.
fn transfers(adjudicator: &mut Adjudicator, bring: &Op, pay: &Op, count: u64) -> bool {
    let mut all = true;
    for _ in 0..count {
        all &= enters(adjudicator, bring);
        all &= enters(adjudicator, pay);
    }
    all
}

/// The transfer of the one item of a channel's outcome.
fn transfer(alloc: Global, channel: Name) -> Result<Op> {
    let outcome = read_outcome(alloc, &outcome_bytes())?;
    Ok(Op::Call(Call::Transfer(TransferCall {
        channel,
        outcome,
        asset: 0,
        index: 0,
    })))
}

/// The call that makes a channel final.
fn conclude(alloc: Global, fixed: &Fixed) -> Result<Op> {
    let bytes = conclude_bytes(alloc, fixed)?;
    let call = read_call(alloc, &bytes)?;
    Ok(Op::Call(call))
}

/// Makes a channel final, and gives its name.
fn final_channel(alloc: Global, adjudicator: &mut Adjudicator) -> Result<Name> {
    let fixed = crate::spelled::fixed(alloc)?;
    let conclude = conclude(alloc, &fixed)?;
    if enters(adjudicator, &conclude) {
        Ok(channel_name(&fixed))
    } else {
        Err(anyhow!("the channel isn't concluded"))
    }
}

fn measure_deposits(rt: &HostRuntime, adjudicator: &mut Adjudicator, count: u64) -> Result<bool> {
    let start = Instant::now(rt)?;
    let all = deposits(adjudicator, count);
    print_time(rt, &start)?;
    Ok(all)
}

fn measure_transfers(rt: &HostRuntime, adjudicator: &mut Adjudicator, count: u64) -> Result<bool> {
    let channel = final_channel(rt.alloc(), adjudicator)?;
    let pay = transfer(rt.alloc(), channel)?;
    let start = Instant::now(rt)?;
    let all = transfers(adjudicator, &deposit(channel), &pay, count);
    print_time(rt, &start)?;
    Ok(all)
}

/// Does the work so many times, or gives `false` where there is no such work.
pub(crate) fn measure(rt: &HostRuntime, work: &str, count: u32) -> Result<bool> {
    let mut adjudicator = Adjudicator::make(rt.alloc());
    let count = u64::from(count);
    let all = match work {
        "deposits" => measure_deposits(rt, &mut adjudicator, count)?,
        "transfers" => measure_transfers(rt, &mut adjudicator, count)?,
        _ => return Ok(false),
    };
    if !all {
        bail!("an op was refused");
    }
    Ok(true)
}
