//! Journals of participants, honesty, and what it keeps them safe from, in a history and in a race.
#![tactic(auto)]

mod chain_laws;
pub mod growing;
pub mod hashing;
pub mod in_time;
pub mod race_witness;
pub mod safety;
pub mod safety_witness;
mod validity;

pub use chain_laws::good_chains_grow;
pub use validity::{adds_are_valid, entries_are_valid, events_are_valid};
