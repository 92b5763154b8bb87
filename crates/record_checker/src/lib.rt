//! Checks records of runs, and says what is wrong with one; and prints one as text.
#![tactic(auto)]

mod answering;
mod check;
mod checking;
mod comparing;
mod laws;
mod past;
mod plans;
mod rests;
mod running;
mod shares;
mod showing;
mod shown_endings;
mod shown_plans;
mod shown_sums;
mod shown_text;
mod status;
mod verdict_lines;
mod walking;

pub use answering::Answering;
pub use check::run_check;
pub use checking::{Verdict, check_record};
pub use laws::verdicts_are_one;
pub use running::run_on_record;
pub use showing::run_show;
pub use status::Status;
pub use verdict_lines::{fault_line, verdict_line};
