//! A watchtower that many threads ask, and its replay over a record.
#![tactic(auto)]

mod answering;
mod beside;
mod client;
mod clients;
mod enrolling;
mod fault;
mod found;
mod holders;
mod laws;
mod lines;
mod looking;
mod replaying;
mod tower;

pub use answering::Answer;
pub use client::Client;
pub use enrolling::enroll;
pub use fault::HandFault;
pub use laws::{clients_are_apart, each_is_told, legal_times_rise};
pub use replaying::replay;
pub use tower::Tower;
