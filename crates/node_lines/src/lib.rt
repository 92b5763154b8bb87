//! The lines of a node that lasts: what it is told, and what it answers. Each line is one JSON object.
#![tactic(auto)]

mod answers;
mod calls;
mod channels;
mod commands;
mod effects;
mod entries;
mod errors;
mod events;
mod faults;
mod lists;
mod outcomes;
mod ready;
mod refusals;
mod values;

pub use answers::{AssetBalance, balance_text, chains_text, plan_text, report_text, share_text};
pub use effects::{Effect, effect_lines, effect_text};
pub use entries::LedgerEntry;
pub use errors::{Why, error_text};
pub use events::{CallNumber, Line, NodeEvent, Query, Start, read_line, read_start};
pub use faults::{Invalid, LineError};
pub use ready::{Ready, ready_text};
