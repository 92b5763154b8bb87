//! The state file of the system, and the lines of a reader. The file is locked, its owner alone may use it, and it only
//! grows. Its first line is a title and the number of its inode, so a copy differs from the file that was written.
#![tactic(auto)]

mod lines;
mod opening;
mod record;
mod standing;

pub use lines::{LINE_LIMIT, ReaderLines};
pub use opening::{OpenError, StateFile};
pub use record::Record;
pub use standing::Standing;
