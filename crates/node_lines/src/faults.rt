//! Why a line isn't read.

ghost use Rattle.std.specs.Prelude.{◌≡◌};
ghost use Rattle.node_lines.specs.declared.faults.LineError.TheVariants.{NoMemory as NoMemoryLeft};

use channel_values::NoMemory;
use std::alloc::{AllocError, AllocFailed};

/// Why a line says nothing that a node can be told.
#[derive(Clone, Copy, Debug, PartialEq, Eq)]
pub enum Invalid {
    /// It is no JSON text.
    Json,
    /// A value isn't of its form: it is of another kind, or a key is missing or extra.
    Shape,
    /// A number, a channel or an outcome breaks a limit.
    Limit,
    /// Digits aren't lower-case pairs, not as many as are needed, or not the canonical bytes of anything.
    Bytes,
}

/// Why nothing was read.
#[derive(Clone, Copy, Debug, PartialEq, Eq)]
pub enum LineError {
    NoMemory,
    Invalid(Invalid),
}

impl From<AllocError> for LineError {
    ghost from_gives = { λ _ e. e ≡ NoMemoryLeft };

    fn from(_: AllocError) -> LineError {
        LineError::NoMemory
    }
}

impl<T: Drop> From<AllocFailed<T>> for LineError {
    ghost from_gives = { λ _ e. e ≡ NoMemoryLeft };

    fn from(_: AllocFailed<T>) -> LineError {
        LineError::NoMemory
    }
}

impl From<NoMemory> for LineError {
    ghost from_gives = { λ _ e. e ≡ NoMemoryLeft };

    fn from(_: NoMemory) -> LineError {
        LineError::NoMemory
    }
}
