//! Reads records, and a law of their bytes.
#![tactic(auto)]

mod endings;
mod entries;
mod numbers;
mod reading;
mod record_laws;

pub use reading::read_record;
pub use record_laws::fronts_of_records_are_cut;
