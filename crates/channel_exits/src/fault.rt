//! Why there is no exit yet.

ghost use Rattle.std.specs.Prelude.{◌≡◌};

use call_history::Refusal;
use channel_values::{Name, NoMemory};
use std::error::Error;
use std::fmt;

/// The first reason that holds.
#[derive(Clone, Copy, Debug, PartialEq, Eq)]
pub enum ExitFault {
    /// This channel, of which a chain is held, isn't final.
    NotFinal(Name),
    NoMemory,
}

impl From<NoMemory> for ExitFault {
    ghost use Rattle.channel_exits.specs.declared.fault.ExitFault.TheVariants as faults;

    ghost from_gives = { λ _ e. e ≡ faults.NoMemory };

    fn from(_e: NoMemory) -> ExitFault {
        ExitFault::NoMemory
    }
}

impl fmt::Display for ExitFault {
    fn fmt<W: fmt::Write>(&self, f: &mut fmt::Formatter<W>) -> fmt::Result {
        match self {
            ExitFault::NotFinal(channel) => write!(f, "{}", Refusal::NotFinal(*channel)),
            ExitFault::NoMemory => write!(f, "{}", NoMemory),
        }
    }
}

impl Error for ExitFault {}
