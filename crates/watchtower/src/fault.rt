//! Why a chain isn't taken.

ghost use Rattle.std.specs.Prelude.{◌≡◌};

use channel_values::{NoMemory, SupportFault};

/// The first reason that holds.
#[derive(Clone, Copy, Debug, PartialEq, Eq)]
pub enum HandFault {
    /// The client wasn't admitted.
    UnknownClient,
    /// The chain isn't supported.
    NotSupported(SupportFault),
    /// The chain that the client handed of this channel before has this turn, and the new one's isn't above it.
    NotNewer(u64),
    /// The client has chains of so many other channels.
    TooMany(u64),
    NoMemory,
}

impl From<NoMemory> for HandFault {
    ghost use Rattle.watchtower.specs.declared.fault.HandFault.TheVariants as faults;

    ghost from_gives = { λ _ e. e ≡ faults.NoMemory };

    fn from(_e: NoMemory) -> HandFault {
        HandFault::NoMemory
    }
}
