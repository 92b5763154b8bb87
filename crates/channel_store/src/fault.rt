//! Why a state isn't noted.

ghost use Rattle.std.specs.Prelude.{◌≡◌};

use channel_values::{NoMemory, StepFault};

/// The first reason that holds.
#[derive(Clone, Copy, Debug, PartialEq, Eq)]
pub enum NoteFault {
    /// The channel wasn't added.
    Unknown,
    /// The turn isn't the next one: the turn that is next, or 0 where the states of the held chain are all final.
    NotNext(u64),
    /// The key of the state's mover doesn't verify it.
    BadSignature,
    /// The state doesn't follow.
    BadStep(StepFault),
    NoMemory,
}

impl From<NoMemory> for NoteFault {
    ghost use Rattle.channel_store.specs.declared.fault.NoteFault.TheVariants as faults;

    ghost from_gives = { λ _ e. e ≡ faults.NoMemory };

    fn from(_e: NoMemory) -> NoteFault {
        NoteFault::NoMemory
    }
}
