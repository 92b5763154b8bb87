//! What a node knows: its plan, its view of the history and its store, as entries come, states are noted and commands
//! are taken up.
#![tactic(auto)]

mod closing;
mod giving;
mod known;
mod leaving;
mod opening;
mod showing;

pub use closing::place_with;
pub use known::Known;
pub use leaving::{Challenger, is_open, stands_in};
pub use opening::{name_of, place_among, takes_part};
