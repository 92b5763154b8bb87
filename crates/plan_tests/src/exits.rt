//! The exit of one person from one channel.

use crate::built::{A, Body, CHANNEL, TO_A, TO_B, held_with, outcome_of, plan_of, view_of};
use call_history::{Call, ChannelView, ChannelViews, WorldView};
use channel_exits::{ExitFault, exit_calls};
use channel_values::{ByteFault, Listed, Name};
use funding_plans::Part;
use std::alloc::Global;

/// The place of the only item that is transferred, if any, or the channel that isn't final.
type Answer = Result<Option<u8>, Name>;

/// The time, and the answer. The deadline of the channel is 10.
const EXITS: [(u64, Answer); 2] = [(9, Err(CHANNEL)), (10, Ok(Some(1)))];

/// B has 3, and A 5.
const SETTLED: Body = Body::Items(&[(TO_B, 3), (TO_A, 5)]);

fn channel_of(alloc: Global) -> Result<ChannelView, ByteFault> {
    let held = Vec::from_array(alloc, [(0, 8)])?;
    let settled = outcome_of(alloc, SETTLED)?;
    let rest = outcome_of(alloc, SETTLED)?;
    Ok(ChannelView {
        channel: CHANNEL,
        turn: 5,
        deadline: Some(10),
        held: Listed::make(held),
        shown: None,
        settled: Some(settled),
        rest: Some(rest),
    })
}

fn seen_at(alloc: Global, now: u64) -> Result<WorldView, ByteFault> {
    let mut channels = ChannelViews::new(alloc);
    channels.push(channel_of(alloc)?)?;
    Ok(view_of(alloc, now, channels))
}

fn called(calls: &[Call]) -> Option<u8> {
    match calls {
        [Call::Transfer(transfer)] => Some(transfer.index),
        _ => None,
    }
}

fn told(answer: Result<Vec<Call>, ExitFault>) -> Answer {
    match answer {
        Ok(calls) => Ok(called(&calls)),
        Err(ExitFault::NotFinal(name)) => Err(name),
        Err(ExitFault::NoMemory) => Ok(None),
    }
}

fn exits_at(alloc: Global, now: u64) -> Result<Answer, ByteFault> {
    let plan = plan_of(alloc, A, &[Part::Root(CHANNEL)])?;
    let view = seen_at(alloc, now)?;
    let chains = Vec::from_array(alloc, [held_with(alloc, Vec::new(alloc))?])?;
    Ok(told(exit_calls(alloc, &plan, &view, &chains)))
}

#[test]
fn a_final_channel_pays(rt: HostRuntime) {
    for (now, answer) in EXITS {
        assert_eq!(rt; exits_at(rt.alloc(), now), Ok(answer), "at {now}");
    }
}
