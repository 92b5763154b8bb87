//! Chains of payment channels of two people with keys, and challenges with them. The first person moves to even
//! turns, and pays 1 at turns 4 and 6.

use call_history::{Call, ChallengeCall, Entry, Op, Reply};
use channel_values::{
    AssetOutcome, Chain, Dest, Fixed, Item, Key, Listed, Mark, Name, Outcome, Shape, State,
    channel_name, person_name, state_digest, state_message,
};
use lms_signatures::Signer;
use std::alloc::Global;

type Keys = [Key; 2];

fn signer_of(alloc: Global, person: u8) -> Option<Signer> {
    Signer::make(alloc, [person; 32], [person; 16], 5).ok()
}

/// The channel of the nonce. A challenge lasts 10.
fn fixed_of(alloc: Global, keys: &Keys, nonce: u64) -> Option<Fixed> {
    let keys = Vec::from_slice(alloc, keys).ok()?;
    Fixed::make(alloc, keys, nonce, 1, 10).ok()
}

fn name_of(alloc: Global, keys: &Keys, nonce: u64) -> Option<Name> {
    let fixed = fixed_of(alloc, keys, nonce)?;
    Some(channel_name(fixed.bytes()))
}

/// What the first and the second person have.
fn amounts_at(turn: u64) -> [u64; 2] {
    match turn {
        0..=3 => [5, 3],
        4..=5 => [4, 4],
        _ => [3, 5],
    }
}

fn item(key: &Key, amount: u64) -> Item {
    Item {
        to: Dest::Person(person_name(key)),
        amount,
    }
}

fn shape_at(alloc: Global, keys: &Keys, turn: u64) -> Option<Shape> {
    let amounts = amounts_at(turn);
    let items = [item(&keys[0], amounts[0]), item(&keys[1], amounts[1])];
    let items = Vec::from_slice(alloc, &items).ok()?;
    Some(Shape::Allocation(Listed::make(items)))
}

fn outcome_at(alloc: Global, keys: &Keys, turn: u64) -> Option<Outcome> {
    let shape = shape_at(alloc, keys, turn)?;
    let assets = Vec::from_array(alloc, [AssetOutcome { asset: 0, shape }]).ok()?;
    Outcome::make(alloc, assets).ok()
}

fn state_at(alloc: Global, keys: &Keys, turn: u64) -> Option<State> {
    let outcome = outcome_at(alloc, keys, turn)?;
    State::make(alloc, turn, false, outcome, Vec::new(alloc)).ok()
}

/// The states of the turn before the last one, and of the last one.
fn states_to(alloc: Global, keys: &Keys, last: u64) -> Option<Vec<State>> {
    let before = state_at(alloc, keys, last.saturating_sub(1))?;
    let after = state_at(alloc, keys, last)?;
    Vec::from_array(alloc, [before, after]).ok()
}

/// The signer's mark at the place, with its signature of the state there.
fn mark_of(signer: &mut Signer, place: u8, channel: &Name, states: &[State]) -> Option<Mark> {
    let state = states.get(place as usize)?;
    let message = state_message(&state_digest(channel, state.bytes()));
    let signature = signer.sign(&message).ok()?;
    Some(Mark {
        place,
        signature: Listed::make(signature),
    })
}

/// The first person's mark on the last of two states, and the second's on the one before.
fn marks_of(
    alloc: Global,
    one: &mut Signer,
    two: &mut Signer,
    channel: &Name,
    states: &[State],
) -> Option<Vec<Mark>> {
    let first = mark_of(one, 1, channel, states)?;
    let second = mark_of(two, 0, channel, states)?;
    Vec::from_array(alloc, [first, second]).ok()
}

fn chain_by(
    alloc: Global,
    one: &mut Signer,
    two: &mut Signer,
    nonces: [u64; 2],
    last: u64,
) -> Option<Chain> {
    let keys = [one.public(), two.public()];
    let channel = name_of(alloc, &keys, nonces[1])?;
    let fixed = fixed_of(alloc, &keys, nonces[0])?;
    let states = states_to(alloc, &keys, last)?;
    let marks = marks_of(alloc, one, two, &channel, &states)?;
    Some(Chain {
        fixed,
        states: Listed::make(states),
        marks: Listed::make(marks),
    })
}

/// The chain of an even turn and the turn before it, of the channel with the first nonce. Both signed it as if it
/// were of the channel with the second. None when memory runs out.
pub fn chain_signed_as(alloc: Global, nonces: [u64; 2], last: u64) -> Option<Chain> {
    let mut one = signer_of(alloc, 1)?;
    let mut two = signer_of(alloc, 2)?;
    chain_by(alloc, &mut one, &mut two, nonces, last)
}

/// The chain of an even turn and the turn before it, which both signed. None when memory runs out.
pub fn chain(alloc: Global, nonce: u64, last: u64) -> Option<Chain> {
    chain_signed_as(alloc, [nonce, nonce], last)
}

/// The entry of the second person's challenge with such a chain, accepted at time 0. The challenge itself isn't
/// signed, since nobody who follows entries looks at that. None when memory runs out.
pub fn challenge(alloc: Global, nonce: u64, last: u64) -> Option<Entry> {
    let chain = chain(alloc, nonce, last)?;
    Some(Entry {
        number: 1,
        by: 2,
        op: Op::Call(Call::Challenge(ChallengeCall {
            chain,
            challenger: 1,
            signature: Listed::make(Vec::new(alloc)),
        })),
        reply: Reply::Until(10),
    })
}
