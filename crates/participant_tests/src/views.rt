//! Histories of a channel, and what is known after each entry.

use crate::pair::{Act, LEDGER, OTHER, Pair, pair_of};
use call_history::{ChannelView, Entry, Refusal, Reply, WorldView, top_turn};
use channel_values::{Key, Name, Outcome, Shape, person_name};
use history_view::{can_follow, follow, held_amount, paid_amount, unseen, view_of};
use std::alloc::{AllocGlobal, Global};
use std::process::Abort;
use std::test::Fail;

/// A channel's turn, its deadline, how many states are shown, the turn of the last one and how many are marked. Also
/// what the two people have of asset 0 in the outcome and in the rest.
type Row = (
    u64,
    Option<u64>,
    Option<(usize, u64, usize)>,
    Option<(u64, u64)>,
    Option<(u64, u64)>,
);

/// An entry, or a question with its answer.
#[derive(Clone, Copy)]
enum Case {
    /// The view can follow, and does.
    Follows(Act, Reply),
    /// It can't, where the entry's number is so many above that of the last one.
    Stops(u32, Act, Reply),
    Known(Row),
    LedgerIs(Option<Row>),
    Holds(Name, u32, u64),
    /// What the channel holds of asset 0.
    IsFunded(u64),
    Paid(Name, u32, u64),
    FirstPaid(u32, u64),
    SecondPaid(u32, u64),
    Now(u64),
    Count(u32),
}

/// What the two people have of asset 0.
fn amounts(outcome: &Option<Outcome>) -> Option<(u64, u64)> {
    let Some(outcome) = outcome else {
        return None;
    };
    let [first] = outcome.assets() else {
        return None;
    };
    let Shape::Allocation(items) = &first.shape else {
        return None;
    };
    match items.as_slice() {
        [first, second] => Some((first.amount, second.amount)),
        _ => None,
    }
}

fn shown(view: &ChannelView) -> Option<(usize, u64, usize)> {
    match &view.shown {
        None => None,
        Some(chain) => Some((
            chain.states.as_slice().len(),
            top_turn(chain.states.as_slice()),
            chain.marks.as_slice().len(),
        )),
    }
}

fn row(view: &WorldView, channel: &Name) -> Option<Row> {
    match view_of(view, channel) {
        None => None,
        Some(known) => Some((
            known.turn,
            known.deadline,
            shown(known),
            amounts(&known.settled),
            amounts(&known.rest),
        )),
    }
}

/// Whether the view could follow the entry, and so did.
fn follows(view: &mut WorldView, entry: &Entry) -> Result<bool, Fail> {
    if !can_follow(view, entry) {
        return Ok(false);
    }
    follow(view, entry)?;
    Ok(true)
}

fn entered(
    pair: &Pair,
    view: &mut WorldView,
    ahead: u32,
    act: Act,
    reply: Reply,
) -> Result<bool, Fail> {
    let number = view.count.saturating_add(ahead);
    let op = pair.op(act)?;
    follows(
        view,
        &Entry {
            number,
            by: 0,
            op,
            reply,
        },
    )
}

fn paid(view: &WorldView, key: &Key, asset: u32) -> u64 {
    paid_amount(view, &person_name(key), asset)
}

fn is_so(pair: &Pair, ours: &Name, view: &mut WorldView, case: Case) -> Result<bool, Fail> {
    match case {
        Case::Follows(act, reply) => entered(pair, view, 1, act, reply),
        Case::Stops(ahead, act, reply) => Ok(!entered(pair, view, ahead, act, reply)?),
        Case::Known(wanted) => Ok(row(view, ours) == Some(wanted)),
        Case::LedgerIs(wanted) => Ok(row(view, &LEDGER) == wanted),
        Case::Holds(channel, asset, amount) => Ok(held_amount(view, &channel, asset) == amount),
        Case::IsFunded(amount) => Ok(held_amount(view, ours, 0) == amount),
        Case::Paid(person, asset, amount) => Ok(paid_amount(view, &person, asset) == amount),
        Case::FirstPaid(asset, amount) => Ok(paid(view, &pair.keys[0], asset) == amount),
        Case::SecondPaid(asset, amount) => Ok(paid(view, &pair.keys[1], asset) == amount),
        Case::Now(now) => Ok(view.now == now),
        Case::Count(count) => Ok(view.count == count),
    }
}

/// Each case is so, in this order, from the view of no entry on.
fn all_are_so(rt: &(impl AllocGlobal + Abort), cases: &[Case]) -> Result<(), Fail> {
    let pair = pair_of(rt.alloc(), 1);
    let ours = pair.channel()?;
    let view = &mut unseen(rt.alloc());
    for (place, case) in cases.iter().enumerate() {
        assert!(rt; is_so(&pair, &ours, view, *case)?, "case {place}");
    }
    Ok(())
}

mod disputes;
mod funds;
