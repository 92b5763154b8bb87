//! Why a round was not run to its end.

use channel_values::NoMemory;
use shared_object::BookFault;
use std::alloc::{AllocError, AllocFailed};

/// What was entered stays. The crew isn't used again.
#[derive(Clone, Copy, Debug, PartialEq, Eq)]
pub enum RoundFault {
    /// The history has this many entries, and no number is left for one more.
    Full(u32),
    NoMemory,
}

pub(crate) fn fault_of(fault: BookFault) -> RoundFault {
    match fault {
        BookFault::Full(count) => RoundFault::Full(count),
        BookFault::NoMemory => RoundFault::NoMemory,
    }
}

impl From<NoMemory> for RoundFault {
    fn from(_: NoMemory) -> RoundFault {
        RoundFault::NoMemory
    }
}

impl From<AllocError> for RoundFault {
    fn from(_: AllocError) -> RoundFault {
        RoundFault::NoMemory
    }
}

impl<T: Drop> From<AllocFailed<T>> for RoundFault {
    fn from(_: AllocFailed<T>) -> RoundFault {
        RoundFault::NoMemory
    }
}
