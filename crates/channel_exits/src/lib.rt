//! How a participant leaves a plan by calls alone, and that its exit pays its share.
#![tactic(auto)]

mod assets;
mod claims;
mod exits;
mod fault;
pub mod laws;
mod transfers;
mod views;
pub mod witness;

pub use exits::exit_calls;
pub use fault::ExitFault;
