//! Outcomes, plans and views that are built from rows of plain values.

use call_history::{ChannelViews, HeldChain, PaidAmounts, WorldView};
use channel_values::{
    AssetOutcome, ByteFault, Chain, Dest, Fixed, Item, Listed, Name, Outcome, Shape, State,
};
use funding_plans::{Part, Plan, Virtual};
use std::alloc::Global;

pub(super) const A: Name = [1; 32];

pub(super) const B: Name = [2; 32];

/// The intermediary.
pub(super) const I: Name = [3; 32];

/// The payment channel.
pub(super) const CHANNEL: Name = [4; 32];

pub(super) const LEDGER_A: Name = [5; 32];

pub(super) const LEDGER_B: Name = [6; 32];

pub(super) const GUARANTOR_A: Name = [7; 32];

pub(super) const GUARANTOR_B: Name = [8; 32];

pub(super) const JOINT: Name = [9; 32];

pub(super) const VIRTUAL: Virtual = Virtual {
    ledger_a: LEDGER_A,
    ledger_b: LEDGER_B,
    guarantor_a: GUARANTOR_A,
    guarantor_b: GUARANTOR_B,
    joint: JOINT,
    channel: CHANNEL,
    asset: 0,
    total: 8,
    side_b: false,
};

pub(super) const TO_A: Dest = Dest::Person(A);

pub(super) const TO_B: Dest = Dest::Person(B);

pub(super) const TO_I: Dest = Dest::Person(I);

/// What an outcome says of asset 0.
#[derive(Clone, Copy)]
pub(super) enum Body<'a> {
    /// Destinations with their amounts.
    Items(&'a [(Dest, u64)]),
    /// A guarantee: its target and its list.
    List(Name, &'a [Dest]),
}

/// A has 5, and B 3.
pub(super) const OPENING: Body = Body::Items(&[(TO_A, 5), (TO_B, 3)]);

fn items_of(alloc: Global, pays: &[(Dest, u64)]) -> Result<Shape, ByteFault> {
    let mut items = Vec::new(alloc);
    for (to, amount) in pays {
        items.push(Item {
            to: *to,
            amount: *amount,
        })?;
    }
    Ok(Shape::Allocation(Listed::make(items)))
}

fn shape_of(alloc: Global, body: Body) -> Result<Shape, ByteFault> {
    match body {
        Body::Items(pays) => items_of(alloc, pays),
        Body::List(target, list) => {
            let list = Vec::from_slice(alloc, list)?;
            Ok(Shape::Guarantee(target, Listed::make(list)))
        }
    }
}

pub(super) fn outcome_of(alloc: Global, body: Body) -> Result<Outcome, ByteFault> {
    let shape = shape_of(alloc, body)?;
    let assets = Vec::from_array(alloc, [AssetOutcome { asset: 0, shape }])?;
    Outcome::make(alloc, assets)
}

/// A state with this outcome and these data.
pub(super) fn state_of(
    alloc: Global,
    turn: u64,
    is_final: bool,
    body: Body,
    data: &[u8],
) -> Result<State, ByteFault> {
    let outcome = outcome_of(alloc, body)?;
    let data = Vec::from_slice(alloc, data)?;
    State::make(alloc, turn, is_final, outcome, data)
}

/// The held chain of the payment channel, with these states and no marks.
pub(super) fn held_with(alloc: Global, states: Vec<State>) -> Result<HeldChain, ByteFault> {
    let keys = Vec::from_array(alloc, [[1; 56], [2; 56]])?;
    let fixed = Fixed::make(alloc, keys, 1, 1, 10)?;
    let chain = Chain {
        fixed,
        states: Listed::make(states),
        marks: Listed::make(Vec::new(alloc)),
    };
    Ok(HeldChain {
        channel: CHANNEL,
        chain,
    })
}

pub(super) fn plan_of(alloc: Global, me: Name, parts: &[Part]) -> Result<Plan, ByteFault> {
    let parts = Listed::make(Vec::from_slice(alloc, parts)?);
    Ok(Plan { me, parts })
}

/// A view of these channels, in which nobody was paid.
pub(super) fn view_of(alloc: Global, now: u64, channels: ChannelViews) -> WorldView {
    WorldView {
        now,
        count: 0,
        channels,
        paid: PaidAmounts::new(alloc),
    }
}
