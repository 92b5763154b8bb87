//! Calls, messages and replies in their canonical bytes, and whether two calls are one.
#![tactic(auto)]

mod call_laws;
mod numbers;
mod putting;
mod reading;
mod reply_reading;
mod same_calls;
mod same_replies;
mod writing;

pub use call_laws::{fronts_of_calls_are_cut, fronts_of_messages_are_cut};
pub use putting::{put_named, put_numbered, put_reply, put_u64};
pub use reading::{read_call, read_message, take_call};
pub use reply_reading::{or_bad, take_reply};
pub use same_calls::{is_op, same_call};
pub use same_replies::same_reply;
pub use writing::{write_call, write_message};
