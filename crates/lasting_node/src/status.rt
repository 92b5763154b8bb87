//! How a service ends.

ghost use Rattle.std.specs.Prelude.{◌≡◌};
ghost use Rattle.lasting_node.specs.Statuses.{code_of};

/// Why a service ended.
#[derive(Clone, Copy, Debug, PartialEq, Eq)]
pub enum Status {
    /// All lines of the input are answered.
    InputEnded,
    OutOfMemory,
    /// The arguments of the program are wrong.
    Usage,
    /// The input can't be read, a line is too long, or the first line isn't `start`.
    InputFailed,
    /// The state file or the output can't be written.
    OutputFailed,
    /// Another process has the state file open.
    InUse,
    /// A record of the state file is wrong, and a later one follows it.
    Damaged,
    /// The state file is another key's, another program's or another version's, or it is a copy of the file that was
    /// written.
    Foreign,
    /// The state file has fewer records than were to be left out.
    Behind,
    /// The reply of an entry isn't the adjudicator's: the entries aren't those of one ledger, or one is missing.
    Entries,
}

impl Status {
    /// The status number that a program ends with.
    pub fn code(self) -> u8
        ensures { result ≡ code_of self }
    {
        match self {
            Status::InputEnded => 0,
            Status::OutOfMemory => 1,
            Status::Usage => 2,
            Status::InputFailed => 4,
            Status::OutputFailed => 5,
            Status::InUse => 8,
            Status::Damaged => 9,
            Status::Foreign => 10,
            Status::Behind => 11,
            Status::Entries => 12,
        }
    }
}
