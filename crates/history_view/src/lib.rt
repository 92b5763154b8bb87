//! What a caller knows of the adjudicator's history: a view, and how it follows one more entry.
#![tactic(auto)]

mod balances;
mod flows;
mod following;
pub mod laws;
mod lowering;
mod payments;
mod readers;
mod room;
mod turning;

pub use following::{follow, unseen};
pub use lowering::outcome_of;
pub use readers::{held_amount, paid_amount, view_of};
pub use room::can_follow;
