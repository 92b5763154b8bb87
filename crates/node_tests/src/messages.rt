//! Commands, outcomes and states of a payment channel of two people, and messages that a person signs.

use call_bytes::write_message;
use channel_values::{
    AssetOutcome, ByteFault, Dest, Fixed, Item, Key, Listed, Name, Outcome, Shape, Signed, State,
    channel_name, person_name, state_digest, state_message,
};
use lms_signatures::Signer;
use network::Command;
use std::alloc::Global;
use std::test::Fail;

/// A state, with the number of the person that signs it.
#[derive(Clone, Copy)]
pub(crate) struct Brought {
    pub(crate) turn: u64,
    pub(crate) amounts: (u64, u64),
    pub(crate) number: u8,
}

/// The people's keys.
pub(crate) type People = (Key, Key);

/// The key of the person of a number.
pub(crate) fn key_of(alloc: Global, number: u8) -> Result<Key, Fail> {
    let signer = Signer::make(alloc, [number; 32], [number; 16], 5)?;
    Ok(signer.public())
}

/// The channel of a nonce, for payments, with duration 2.
pub(crate) fn fixed_of(alloc: Global, people: &People, nonce: u64) -> Result<Fixed, ByteFault> {
    let keys = vec![in alloc; people.0, people.1]?;
    Fixed::make(alloc, keys, nonce, 1, 2)
}

pub(crate) fn channel_of(alloc: Global, people: &People) -> Result<Name, ByteFault> {
    let fixed = fixed_of(alloc, people, 1)?;
    Ok(channel_name(fixed.bytes()))
}

fn item(key: &Key, amount: u64) -> Item {
    Item {
        to: Dest::Person(person_name(key)),
        amount,
    }
}

/// The outcome that gives both so much of asset 0.
pub(crate) fn outcome_of(
    alloc: Global,
    people: &People,
    amounts: (u64, u64),
) -> Result<Outcome, ByteFault> {
    let items = vec![in alloc; item(&people.0, amounts.0), item(&people.1, amounts.1)]?;
    let shape = Shape::Allocation(Listed::make(items));
    let assets = vec![in alloc; AssetOutcome { asset: 0, shape }]?;
    Outcome::make(alloc, assets)
}

/// What both have of the one asset, in the order of the items.
pub(crate) fn amounts(state: &State) -> Option<(u64, u64)> {
    let [asset] = state.outcome().assets() else {
        return None;
    };
    let Shape::Allocation(items) = &asset.shape else {
        return None;
    };
    match items.as_slice() {
        [a, b] => Some((a.amount, b.amount)),
        _ => None,
    }
}

/// To open the channel of a nonce, with 5 for the first and 3 for the second.
pub(crate) fn open(alloc: Global, people: &People, nonce: u64) -> Result<Command, ByteFault> {
    let fixed = fixed_of(alloc, people, nonce)?;
    let outcome = outcome_of(alloc, people, (5, 3))?;
    Ok(Command::Open { fixed, outcome })
}

pub(crate) fn state_of(
    alloc: Global,
    people: &People,
    turn: u64,
    amounts: (u64, u64),
) -> Result<State, ByteFault> {
    let outcome = outcome_of(alloc, people, amounts)?;
    State::make(alloc, turn, false, outcome, Vec::new(alloc))
}

/// The signature of a state by the person of a number.
fn signature_of(alloc: Global, channel: &Name, state: &State, number: u8) -> Result<Vec<u8>, Fail> {
    let message = state_message(&state_digest(channel, state.bytes()));
    let mut signer = Signer::make(alloc, [number; 32], [number; 16], 5)?;
    Ok(signer.sign(&message)?)
}

/// The bytes of a message.
pub(crate) fn message_of(
    alloc: Global,
    people: &People,
    channel: &Name,
    row: &Brought,
) -> Result<Vec<u8>, Fail> {
    let state = state_of(alloc, people, row.turn, row.amounts)?;
    let signature = signature_of(alloc, channel, &state, row.number)?;
    let mut bytes = Vec::new(alloc);
    if signature.len() <= 9004 {
        let signature = Listed::make(signature);
        write_message(channel, &Signed { state, signature }, &mut bytes)?;
    }
    Ok(bytes)
}
