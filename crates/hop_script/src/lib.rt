//! The script of a hop: two people pay each other over two intermediaries, and close or leave everything.
#![tactic(auto)]

mod declaring;
mod ending;
mod entering;
mod fault;
mod hop;
mod opening;
mod parts;
mod paying;

pub use ending::Ending;
pub use fault::HopFault;
pub use hop::hop_script;
