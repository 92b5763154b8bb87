//! States and chains that are built from rows of plain values.

use channel_values::{
    AssetOutcome, ByteFault, Chain, Dest, Fixed, Item, Key, Listed, Mark, Name, Outcome, Shape,
    State, StepFault, person_name,
};
use std::alloc::Global;

/// A turn, whether it is final, a byte of data or 0 for none, and what the first and the second person have.
pub(super) type Parts = (u64, bool, u8, u64, u64);

pub(super) type Fault = Option<StepFault>;

pub(super) const OUTCOME: Fault = Some(StepFault::Outcome);

pub(super) const DATA: Fault = Some(StepFault::Data);

pub(super) const VOTES: Fault = Some(StepFault::Votes);

pub(super) const PROPOSAL: Fault = Some(StepFault::Proposal);

pub(super) const RAISED: Fault = Some(StepFault::Raised);

pub(super) const LOWERED: Fault = Some(StepFault::Lowered);

pub(super) const EARLY: Fault = Some(StepFault::EarlyFinal);

pub(super) const AFTER: Fault = Some(StepFault::AfterFinal);

pub(super) const PEOPLE: [Name; 4] = [[1; 32], [2; 32], [3; 32], [4; 32]];

pub(super) const A: Dest = Dest::Person([1; 32]);

pub(super) const B: Dest = Dest::Person([2; 32]);

/// Destinations with their amounts.
pub(super) type Pays<'a> = &'a [(Dest, u64)];

/// What an outcome says of an asset.
#[derive(Clone, Copy)]
pub(super) enum Body<'a> {
    Items(Pays<'a>),
    /// A guarantee: its target and its list.
    List(Name, &'a [Dest]),
}

pub(super) const PAIR: &[Key] = &[[1; 56], [2; 56]];

pub(super) const TRIPLE: &[Key] = &[[1; 56], [2; 56], [3; 56]];

fn items_of(alloc: Global, pays: Pays) -> Result<Shape, ByteFault> {
    let mut items = Vec::new(alloc);
    for (to, amount) in pays {
        items.push(Item {
            to: *to,
            amount: *amount,
        })?;
    }
    Ok(Shape::Allocation(Listed::make(items)))
}

fn shape_of(alloc: Global, body: Body) -> Result<Shape, ByteFault> {
    match body {
        Body::Items(pays) => items_of(alloc, pays),
        Body::List(target, list) => {
            let list = Vec::from_slice(alloc, list)?;
            Ok(Shape::Guarantee(target, Listed::make(list)))
        }
    }
}

/// An outcome of assets and their bodies.
pub(super) fn outcome_of(alloc: Global, bodies: &[(u32, Body)]) -> Result<Outcome, ByteFault> {
    let mut assets = Vec::new(alloc);
    for (asset, body) in bodies {
        let shape = shape_of(alloc, *body)?;
        assets.push(AssetOutcome {
            asset: *asset,
            shape,
        })?;
    }
    Outcome::make(alloc, assets)
}

/// A state with such an outcome.
pub(super) fn state_with(
    alloc: Global,
    turn: u64,
    is_final: bool,
    bodies: &[(u32, Body)],
    app_bytes: &[u8],
) -> Result<State, ByteFault> {
    let outcome = outcome_of(alloc, bodies)?;
    let app_bytes = Vec::from_slice(alloc, app_bytes)?;
    State::make(alloc, turn, is_final, outcome, app_bytes)
}

/// A state of the people with the first two keys.
pub(super) fn state_of(alloc: Global, parts: &Parts) -> Result<State, ByteFault> {
    let (turn, is_final, data, first, second) = *parts;
    let pays = [
        (Dest::Person(person_name(&[1; 56])), first),
        (Dest::Person(person_name(&[2; 56])), second),
    ];
    let bodies = [(0, Body::Items(&pays))];
    let bytes = [data];
    let count = if data > 0 { 1 } else { 0 };
    state_with(alloc, turn, is_final, &bodies, &bytes[..count])
}

pub(super) fn states_of(alloc: Global, rows: &[Parts]) -> Result<Listed<State>, ByteFault> {
    let mut states = Vec::new(alloc);
    for parts in rows {
        states.push(state_of(alloc, parts)?)?;
    }
    Ok(Listed::make(states))
}

/// Marks at these places, without signatures.
fn marks_of(alloc: Global, places: &[u8]) -> Result<Listed<Mark>, ByteFault> {
    let mut marks = Vec::new(alloc);
    for place in places {
        marks.push(Mark {
            place: *place,
            signature: Listed::make(Vec::new(alloc)),
        })?;
    }
    Ok(Listed::make(marks))
}

/// The fixed part of people with these keys and an application: 0 consensus, 1 payment, 2 fixed.
pub(super) fn fixed_of(alloc: Global, keys: &[Key], app: u8) -> Result<Fixed, ByteFault> {
    Fixed::make(alloc, Vec::from_slice(alloc, keys)?, 7, app, 10)
}

/// A chain whose marks have these places, and no signatures.
pub(super) fn chain_of(
    alloc: Global,
    keys: &[Key],
    app: u8,
    states: &[Parts],
    places: &[u8],
) -> Result<Chain, ByteFault> {
    let fixed = fixed_of(alloc, keys, app)?;
    let states = states_of(alloc, states)?;
    let marks = marks_of(alloc, places)?;
    Ok(Chain {
        fixed,
        states,
        marks,
    })
}
