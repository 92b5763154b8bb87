//! The digests that name channels, persons, states and outcomes, and the strings that are signed.
//!
//! A digest is SHA-256 (FIPS 180-4) of a byte that says its kind and of the bytes that it names. No
//! call takes memory, and none refuses anything.

ghost use Rattle.std.specs.Prelude.{◌≡◌, [], ◌∷◌};
ghost use Rattle.sha2.specs.Hashers.{Holds256};
ghost use Rattle.channel_values.specs.Digests.{name_of_channel, name_of_person, digest_of_state, digest_of_outcome};
ghost use Rattle.channel_values.specs.Messages.{message_of_state, message_of_challenge};

use crate::value::Name;
use sha2::{Digest, Sha256};

// The first byte of each string that is hashed or signed.
const CHANNEL: u8 = 1;

const PERSON: u8 = 2;

const STATE: u8 = 3;

const OUTCOME: u8 = 4;

const STATE_MESSAGE: u8 = 5;

const CHALLENGE_MESSAGE: u8 = 6;

// A hasher that holds a first byte.
fn tagged(tag: u8) -> Sha256
    ensures { Holds256 result (tag ∷ []) }
{
    let mut hasher = Sha256::new();
    hasher.update([tag]);
    hasher
}

/// The name of the channel whose fixed part has these bytes.
#[tactic(auto, unfolding(crate::specs::Digests::name_of_channel))]
pub fn channel_name(fixed: &[u8]) -> Name
    ensures { result ≡ name_of_channel fixed.now }
{
    let mut hasher = tagged(CHANNEL);
    hasher.update(fixed);
    hasher.finalize()
}

/// The name of the person with this public key, of 56 bytes.
#[tactic(auto, unfolding(crate::specs::Digests::name_of_person))]
pub fn person_name(key: &[u8]) -> Name
    ensures { result ≡ name_of_person key.now }
{
    let mut hasher = tagged(PERSON);
    hasher.update(key);
    hasher.finalize()
}

/// The digest of the state of a channel that has these bytes.
#[tactic(auto, unfolding(crate::specs::Digests::digest_of_state))]
pub fn state_digest(channel: &Name, body: &[u8]) -> Name
    ensures { result ≡ digest_of_state channel.now body.now }
{
    let mut hasher = tagged(STATE);
    hasher.update(channel);
    hasher.update(body);
    hasher.finalize()
}

/// The digest of the outcome that has these bytes.
#[tactic(auto, unfolding(crate::specs::Digests::digest_of_outcome))]
pub fn outcome_digest(outcome: &[u8]) -> Name
    ensures { result ≡ digest_of_outcome outcome.now }
{
    let mut hasher = tagged(OUTCOME);
    hasher.update(outcome);
    hasher.finalize()
}

/// What is signed for a state with this digest.
#[tactic(auto, unfolding(crate::specs::Messages::message_of_state))]
pub fn state_message(digest: &Name) -> [u8; 33]
    ensures { result ≡ message_of_state digest.now }
{
    let mut message = [STATE_MESSAGE; 33];
    message[1..].copy_from_slice(digest);
    message
}

/// What is signed for a challenge whose last state has this digest, by the challenger at this position.
#[tactic(auto, unfolding(crate::specs::Messages::message_of_challenge))]
pub fn challenge_message(digest: &Name, challenger: u8) -> [u8; 34]
    ensures { result ≡ message_of_challenge digest.now challenger }
{
    let mut message = [CHALLENGE_MESSAGE; 34];
    message[1..33].copy_from_slice(digest);
    message[33] = challenger;
    message
}
