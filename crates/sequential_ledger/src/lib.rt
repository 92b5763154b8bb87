//! A ledger in one thread: the adjudicator with all the entries that it made.
#![tactic(auto)]

mod ledger;

pub use ledger::Ledger;
