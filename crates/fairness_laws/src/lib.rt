//! Laws alone: what the network's node wants and signs keeps its person's share, and it ends well.
#![tactic(auto)]

mod challenge_laws;
mod ending_laws;
mod fair_laws;
mod target_laws;
mod wish_laws;

pub use challenge_laws::nodes_call_own_challenges;
pub use ending_laws::nodes_end_well;
pub use fair_laws::{
    children_open_with, children_share, children_want_fairly, closings_keep, down_is_outcome,
    down_is_up_before, drifts_keep, end_wants_on, ended_channels_stay, ends_keep, ends_open_with,
    ends_share, ends_share_over, ends_sign_guarantees, ends_split, ends_want_fairly,
    finals_are_fair, funded_runs, funded_unfinished, funded_wants, funded_wants_on,
    known_ledgers_keep, ledgers_back, ledgers_keep_at_places, ledgers_stand_at_places,
    middle_wants_on, middles_keep, middles_open_with, middles_sign_guarantees, middles_split,
    middles_want_fairly, moves_are_fair, moves_keep, nodes_plan_fairly, nodes_sign_fairly,
    openings_keep, parts_are_known, parts_sign_at_places, passes_are_fair, payments_are_fair,
    pays_in_held, plans_are_whole, plans_keep_shares, repeats_are_fair, roots_want_fairly,
    steps_keep, up_is_outcome, up_is_up, wanting_plans_fairly, wanting_plans_leave, wants_move,
};
pub use target_laws::{down_takes_back, up_sets_aside};
pub use wish_laws::{
    guards_bite_where_marks_are_forged, roots_close_after_set_up, roots_open_as_commanded,
    roots_open_with, roots_sign_at_places, roots_sign_what_they_want, set_ups_are_carried,
};
