//! From words, and the bytes of a script, to the printed text of a run or to its record; loads and their laws too.
#![tactic(auto)]

mod fault;
mod keeping;
mod laws;
mod load;
mod load_laws;
mod pair_laws;
mod pair_play_laws;
mod payments;
mod people;
mod recording;
mod report_laws;
mod route;
mod route_words;
mod run;
mod status;

pub use fault::LoadFault;
pub use laws::calm_runs_end_alike;
pub use load::load_script;
pub use load_laws::loads_pay;
pub use network_node::Node;
pub use pair_laws::{pairs_sign, roots_take};
pub use pair_play_laws::{
    honest_two_finish, payments_are_held, rounds_are_made, rounds_rest, two_close, two_open,
    wholes_are_in_time,
};
pub use recording::{record_in_one_thread, run_record};
pub use report_laws::{plays_have_sound_records, races_have_sound_records, records_have_sums};
pub use route::{RouteEnded, run_route};
pub use run::{Ended, Status, line_of, run_in_one_thread, run_words};
pub use status::Status as RecordStatus;
