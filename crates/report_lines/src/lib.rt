//! The lines of a report, each by itself: what persons and channels are called, entries, refusals and balances.
#![tactic(auto)]

mod balances;
mod entries;
mod names;
mod refusals;

pub use balances::{asset_line, end_line, held_line, paid_line};
pub use entries::entry_line;
pub use names::{channel_text, person_text};
pub use refusals::node_refusal_text;
