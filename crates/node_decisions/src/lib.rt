//! What the network's node signs, and what it refuses.
#![tactic(auto)]

mod closing;
mod command;
mod live;
mod messages;
mod moving;
mod opening;
mod payments;
mod planned;
mod sending;
mod signing;
mod unfinished;

pub use command::command_refusal;
pub use live::{has_left, not_open, not_running, part_joined, part_with, stage_of};
pub use messages::{handle, message_refusal};
pub use moving::{Payment, state_of};
pub use payments::{pay_refusal, paying};
pub use signing::signable;
