//! Where the bytes of a script come from, and reading them to their end.

ghost use Rattle.std.specs.Prelude.{◌≡◌, ◌≤◌, ◌<◌, ℕ, List, Option, length, IfOk, IsErrOf};
ghost use Rattle.std.specs.Io.KnownBytes.{Consumes, IsAtEnd};
ghost use Rattle.byte_streams.specs.declared.source.ReadEnd.TheVariants.{NoMemory};
ghost use Rattle.byte_streams.specs.OutsideSource.{Rose, TakeGives};

use std::alloc::{AllocError, Global};
use std::error::Error;
use std::fmt;

/// A script has at most so many bytes.
pub const READ_LIMIT: usize = 4_194_304;

/// What a source answers.
#[derive(Clone, Copy, Debug, PartialEq, Eq)]
pub enum Took {
    Got(usize),
    End,
    Failed,
}

/// Where bytes come from.
pub trait Source {
    /// The bytes that are left, where the source shows them.
    ghost remaining: { Self → Option (List ℕ) };

    /// How often it has failed.
    ghost faults: { Self → ℕ };

    fn take(&mut self, into: &mut [u8]) -> Took
        ensures gives { TakeGives (remaining self.old) (remaining self.new) into.new result }
        ensures later { faults self.old ≤ faults self.new }
        ensures failed { result ≡ Took.Failed → Rose (faults self.old) (faults self.new) };
}

/// Why a source was not read to its end.
#[derive(Clone, Copy, Debug, PartialEq, Eq)]
pub enum ReadEnd {
    NoMemory,
    Failed,
    TooLong,
}

impl fmt::Display for ReadEnd {
    ghost use Rattle.std.specs.Prelude.{Some};
    ghost use Rattle.byte_streams.specs.Messages.{end_words};

    ghost output = { λ x. Some (end_words x) };

    fn fmt<W: fmt::Write>(&self, f: &mut fmt::Formatter<W>) -> fmt::Result {
        match self {
            ReadEnd::NoMemory => write!(f, "out of memory"),
            ReadEnd::Failed => write!(f, "the source failed"),
            ReadEnd::TooLong => write!(f, "more than {READ_LIMIT} bytes"),
        }
    }
}

impl Error for ReadEnd {}

impl From<AllocError> for ReadEnd {
    ghost from_gives = { λ _ e. e ≡ NoMemory };

    fn from(_: AllocError) -> ReadEnd {
        ReadEnd::NoMemory
    }
}

/// All bytes that the source has left.
pub fn read_all<S: Source>(alloc: Global, source: &mut S) -> Result<Vec<u8>, ReadEnd>
    ensures bytes { IfOk result (λ bytes. Consumes (S.remaining source.old) (S.remaining source.new) bytes.items) }
    ensures end { IfOk result (λ bytes. IsAtEnd (S.remaining source.new)) }
    ensures short { IfOk result (λ bytes. length bytes.items ≤ READ_LIMIT) }

    // The count never falls, and a fault is told only where it rose, before the limit was passed.
    ensures later { S.faults source.old ≤ S.faults source.new }
    ensures failed { IsErrOf result ReadEnd.Failed → Rose (S.faults source.old) (S.faults source.new) }
    ensures failed_early { IsErrOf result ReadEnd.Failed → (taken : List ℕ)
        × Consumes (S.remaining source.old) (S.remaining source.new) taken × (length taken ≤ READ_LIMIT) }

    // Else more was taken: of a source that doesn't tell its bytes, some list of that many.
    ensures too_long { IsErrOf result ReadEnd.TooLong → (taken : List ℕ)
        × Consumes (S.remaining source.old) (S.remaining source.new) taken × (READ_LIMIT < length taken) }

    // For want of memory the source is somewhere past its start.
    ensures no_memory { IsErrOf result ReadEnd.NoMemory → (taken : List ℕ)
        × Consumes (S.remaining source.old) (S.remaining source.new) taken }
{
    let mut bytes = Vec::new(alloc);
    let mut buffer = [0u8; 4096];
    while bytes.len() <= READ_LIMIT {
        match source.take(&mut buffer) {
            Took::End | Took::Got(0) => return Ok(bytes),
            Took::Failed => return Err(ReadEnd::Failed),
            Took::Got(count) => bytes.extend_from_slice(&buffer[..count])?,
        }
    }
    Err(ReadEnd::TooLong)
}
