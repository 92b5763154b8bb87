//! Records of runs in their canonical bytes, and the rules that a sound record keeps.
#![tactic(auto)]

mod laws;
mod limits;
mod numbers;
mod putting;
mod run_record;
mod sums;
mod writing;

pub use laws::laws_of_records;
pub use limits::{MOST_CHAINS, MOST_ENDS, MOST_KNOWN, MOST_PARTS};
pub use run_record::{Ending, Record, Sum, SumOf};
pub use sums::sums_of;
pub use writing::write_record;
