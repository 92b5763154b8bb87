//! The printed text of a run, from its report: the entries, the refused commands and the balances. For each person
//! with a node it says whether the premises of safety hold, what it was paid and can get, and what it could get at
//! its exit.
#![tactic(auto)]

mod commands;
mod flows;
mod judged;
pub mod laws;
mod people;
mod report;
mod text;

pub use flows::assets_of;
pub use report::{Judged, Load, Report, Share, record_from, tail_of, text_of};
pub use text::balances_of;
