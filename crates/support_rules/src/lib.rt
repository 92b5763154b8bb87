//! Steps of a channel by its application, and chains of states that support a turn.
#![tactic(auto)]

mod app_rules;
mod checking;
mod consensus;
mod laws;
mod payment;
mod signature;
mod steps;
mod support;
pub mod support_laws;
mod toward;

pub use app_rules::app_step;
pub use channel_values::{Chain, Mark, StepFault, SupportFault};
pub use checking::check_signatures;
pub use consensus::{is_same_outcome, vote_bytes, votes_of};
pub use laws::wanted_is_step;
pub use signature::{is_signed_well, mark_verifies, signs_state};
pub use steps::step;
pub use support::{people_of, supports, supports_with};
pub use toward::{move_toward, unless_memory};
