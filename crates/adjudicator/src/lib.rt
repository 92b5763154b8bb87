//! The adjudicator: its rules of challenges, its rows and deadlines, and the history of all that call it.
#![tactic(auto)]

mod adjudicator;
mod answers;
mod challenge_answers;
mod checked;
mod deadlines;
mod ending;
pub mod laws;
mod opening;
mod rows;
mod shared;
mod supported;
mod top;

pub use adjudicator::{Adjudicator, LAST_TIME};
pub use call_history::{Row, row_or_blank};
pub use challenge_answers::{refute, refute_with, respond, respond_with};
pub use checked::CheckedOp;
pub use deadlines::{Deadlines, Name, NoMemory};
pub use opening::{challenge, challenge_with};
pub use supported::{checkpoint, checkpoint_with, conclude, conclude_with};
pub use top::is_challenge_signed;
