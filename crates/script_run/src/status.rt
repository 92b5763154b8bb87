//! How a recording ends.

ghost use Rattle.std.specs.Prelude.{◌≡◌};
ghost use Rattle.script_run.specs.Recording.{code_of};

use crate::run::Status as Ran;

/// How a recording ended.
#[derive(Clone, Copy, Debug, PartialEq, Eq)]
pub enum Status {
    /// As a run or a race of the script ends; where that was played, its record was written.
    Ran(Ran),
    /// What was played is past the limits of the format.
    PastLimits,
}

impl Status {
    /// The status number that the program ends with.
    pub fn code(self) -> u8
        ensures { result ≡ code_of self }
    {
        match self {
            Status::Ran(status) => status.code(),
            Status::PastLimits => 7,
        }
    }
}
