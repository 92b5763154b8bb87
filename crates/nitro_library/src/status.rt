//! Why a call fails, and the numbers for it.

ghost use Rattle.std.specs.Prelude.{◌≡◌, ◌≢◌};
ghost use Rattle.nitro_library.specs.declared.status.Failure.TheVariants.{OutOfMemory};
ghost use Rattle.nitro_library.specs.Statuses.{code_of, cut_after, status_of, late_of};

use channel_values::NoMemory;
use lasting_lines::Fault;
use std::alloc::AllocError;

/// Why a call failed.
#[derive(Clone, Copy, Debug, PartialEq, Eq)]
pub enum Failure {
    OutOfMemory,
    /// The seed has another length than 32, or the height is none of 5, 10 and 15.
    Key,
    /// The line is too long, or has a byte that separates lines.
    Line,
    /// The state file has as many records as there are numbers.
    File,
    /// A record of the state file is wrong, and a later one follows it.
    Damaged,
    /// The state file is another key's, another program's or another version's, or a copy of the file that was written.
    Foreign,
    /// The state file has fewer records than were to be left out.
    Behind,
    /// The reply of an entry isn't the adjudicator's.
    Entries,
    /// The answer is longer than the room for it. It is kept.
    Room,
    /// An answer is kept, and has to be taken first.
    Kept,
    /// An earlier call failed.
    Ended,
    /// So many bytes of the file are whole, and a torn record follows. Cut the file there, and begin anew.
    Torn(usize),
}

impl Failure {
    /// The number that the header gives it.
    pub fn code(self) -> u8
        ensures code { result ≡ code_of self }
        ensures failed { result ≢ 0 }
    {
        match self {
            Failure::OutOfMemory => 1,
            Failure::Key => 3,
            Failure::Line => 4,
            Failure::File => 5,
            Failure::Damaged => 9,
            Failure::Foreign => 10,
            Failure::Behind => 11,
            Failure::Entries => 12,
            Failure::Room => 13,
            Failure::Kept => 14,
            Failure::Ended => 15,
            Failure::Torn(_) => 20,
        }
    }
}

impl Failure {
    /// After how many bytes the file is to be cut, or 0.
    pub(crate) fn cut_after(self) -> usize
        ensures { result ≡ cut_after self }
    {
        match self {
            Failure::Torn(kept) => kept,
            _ => 0,
        }
    }
}

/// The number for how a call ended, 0 where it was done.
pub(crate) fn status_of(outcome: Result<(), Failure>) -> u8
    ensures { result ≡ status_of outcome }
{
    match outcome {
        Ok(()) => 0,
        Err(failure) => failure.code(),
    }
}

/// Why a line that was looked at fails.
pub(crate) fn late_of(fault: Fault) -> Failure
    ensures { result ≡ late_of fault }
{
    match fault {
        Fault::NoMemory => Failure::OutOfMemory,
        Fault::Foreign => Failure::Entries,
        Fault::Input | Fault::Failed | Fault::Full => Failure::File,
    }
}

impl From<AllocError> for Failure {
    ghost from_gives = { λ _ e. e ≡ OutOfMemory };

    fn from(_e: AllocError) -> Failure {
        Failure::OutOfMemory
    }
}

impl From<NoMemory> for Failure {
    ghost from_gives = { λ _ e. e ≡ OutOfMemory };

    fn from(_e: NoMemory) -> Failure {
        Failure::OutOfMemory
    }
}
