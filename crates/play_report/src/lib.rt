//! The report of a play: its history and journals, and whether the premises hold under which people with nodes are
//! safe.
#![tactic(auto)]

mod endings;
mod judging;
pub mod laws;
mod making;
mod sharing;
mod walking;

pub use making::{report_of, report_play};
