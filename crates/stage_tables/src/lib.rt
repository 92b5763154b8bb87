//! The stages of all plans as one table, which says what a node wants.
#![tactic(auto)]

mod asked;
mod calling;
mod exiting;
mod fitting;
pub mod laws;
mod ledgers;
mod releasing;
mod routes;
mod stake;

pub use asked::{accepts, asked_in, is_unfinished, stage, wanted};
pub use calling::calls;
pub use exiting::{exit_calls_given, exits, is_owed};
pub use fitting::{fits, is_among};
pub use releasing::releases;
