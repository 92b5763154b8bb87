//! A watchtower over a whole record: what it answers after each entry of the record's history.
#![tactic(auto)]

mod replaying;

pub use replaying::run_tower;
