//! Why bytes are no spelling.

ghost use Rattle.std.specs.Prelude.{◌≡◌};

use std::alloc::{AllocError, AllocFailed};

/// No memory was left.
#[derive(Clone, Copy, Debug, PartialEq, Eq)]
pub struct NoMemory;

/// The first fault in reading order, with its place.
#[derive(Clone, Copy, Debug, PartialEq, Eq)]
pub enum ByteFault {
    /// A field passes the end, which is the place.
    Cut(usize),
    BadTag(usize),
    OverLimit(usize),
    Unordered(usize),
    Doubled(usize),
    TotalTooLarge(usize),
    Trailing(usize),
    NoMemory,
}

/// The first broken rule of a step.
#[derive(Clone, Copy, Debug, PartialEq, Eq)]
pub enum StepFault {
    Outcome,
    Data,
    Votes,
    Proposal,
    Raised,
    Lowered,
    EarlyFinal,
    AfterFinal,
}

/// The first break of a chain.
#[derive(Clone, Copy, Debug, PartialEq, Eq)]
pub enum SupportFault {
    Length,
    /// The state at this place doesn't have the next turn.
    Turn(usize),
    /// The state at this place doesn't follow.
    Step(usize, StepFault),
    /// The mark of this participant doesn't do.
    Signature(usize),
}

impl From<AllocError> for ByteFault {
    ghost use Rattle.channel_values.specs.declared.fault.ByteFault.TheVariants as faults;

    ghost from_gives = { λ _ e. e ≡ faults.NoMemory };

    fn from(_e: AllocError) -> ByteFault {
        ByteFault::NoMemory
    }
}

impl<T: Drop> From<AllocFailed<T>> for ByteFault {
    ghost use Rattle.channel_values.specs.declared.fault.ByteFault.TheVariants as faults;

    ghost from_gives = { λ _ e. e ≡ faults.NoMemory };

    fn from(_e: AllocFailed<T>) -> ByteFault {
        ByteFault::NoMemory
    }
}

impl From<AllocError> for NoMemory {
    fn from(_e: AllocError) -> NoMemory {
        NoMemory
    }
}

impl<T: Drop> From<AllocFailed<T>> for NoMemory {
    fn from(_e: AllocFailed<T>) -> NoMemory {
        NoMemory
    }
}

impl From<NoMemory> for ByteFault {
    ghost use Rattle.channel_values.specs.declared.fault.ByteFault.TheVariants as faults;

    ghost from_gives = { λ _ e. e ≡ faults.NoMemory };

    fn from(_e: NoMemory) -> ByteFault {
        ByteFault::NoMemory
    }
}
