//! Laws and examples that no program rests on.
#![tactic(auto)]

pub mod any_rules;
mod hop_exits;
mod hop_shares;
pub mod hop_witness;
mod law_examples;
pub mod laws;
pub mod models;
pub mod race_witness;
mod release_laws;
mod resending_laws;
mod script_laws;

pub use hop_exits::hop_exit;
pub use hop_shares::hop_share;
pub use law_examples::{
    a_channel_on_a_ledger_runs, journals_can_be_played, premises_can_hold, races_can_be_played,
    the_ends_run, the_intermediary_runs,
};
pub use release_laws::{let_go_is_out, let_go_stays, ticks_call_for_it};
pub use resending_laws::{
    messages_are_taken_once, payments_are_sent_again, resends_sign_nothing,
    resent_payments_are_held,
};
pub use script_laws::every_passed_step_happens;
