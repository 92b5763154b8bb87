//! How a run ends.

ghost use Rattle.std.specs.Prelude.{◌≡◌};
ghost use Rattle.record_checker.specs.Answering.{code_of};

use crate::checking::Verdict;
use channel_values::ByteFault;

/// How a run on a record ended, numbered as the ends of runs are.
#[derive(Clone, Copy, Debug, PartialEq, Eq)]
pub enum Status {
    /// The record is sound.
    Done,
    NoMemory,
    Usage,
    /// The bytes are no record.
    Unspelled(ByteFault),
    /// The record isn't sound.
    Unsound(Verdict),
    ReadFault,
    WriteFault,
    TooLong,
}

impl Status {
    /// The status number that the program ends with.
    pub fn code(self) -> u8
        ensures { result ≡ code_of self }
    {
        match self {
            Status::Done => 0,
            Status::NoMemory => 1,
            Status::Usage => 2,
            Status::Unspelled(_) | Status::Unsound(_) => 3,
            Status::ReadFault => 4,
            Status::WriteFault => 5,
            Status::TooLong => 6,
        }
    }
}
