//! The cast of the program: actors that may do harm.
#![tactic(auto)]

mod equivocator;
mod idle;
mod replayer;

pub use equivocator::Equivocator;
pub use idle::Idle;
pub use replayer::Replayer;
