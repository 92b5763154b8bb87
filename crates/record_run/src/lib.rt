//! The run that a record describes, for a picture: as the printed lines would describe it, and who each payment goes
//! to.
#![tactic(auto)]

mod told;
mod told_run;

pub use told::{Told, told_of};
pub use told_run::run_of;
