//! The premises on a history and journals under which safety is proved, as answers: nothing forged, no collision, and
//! watchers in time.
#![tactic(auto)]

mod answers;
mod collision;
mod forgery;
mod hashed;
mod journal;
pub mod laws;
mod timing;

pub use answers::{distinct, in_time, is_in_time, is_unforged, unforged};
pub use journal::{Journal, journal_of};
