//! Why a hop has no script.

ghost use Rattle.std.specs.Prelude.{◌≡◌};
ghost use Rattle.hop_script.specs.declared.fault.HopFault.TheVariants as faults;

use channel_values::NoMemory;
use script_steps::StepFault;
use std::alloc::{AllocError, AllocFailed};
use std::error::Error;
use std::fmt;

/// Why a hop has no script.
#[derive(Clone, Copy, Debug, PartialEq, Eq)]
pub enum HopFault {
    NoMemory,
    /// Two of its people or of its channels have one digest, so that a script could not tell them apart.
    OneName,
}

impl fmt::Display for HopFault {
    ghost use Rattle.std.specs.Prelude.{Some};
    ghost use Rattle.hop_script.specs.Messages.{fault_words};

    ghost output = { λ x. Some (fault_words x) };

    fn fmt<W: fmt::Write>(&self, f: &mut fmt::Formatter<W>) -> fmt::Result {
        match self {
            HopFault::NoMemory => write!(f, "out of memory"),
            HopFault::OneName => write!(f, "two people or two channels have one name"),
        }
    }
}

impl Error for HopFault {}

impl From<NoMemory> for HopFault {
    ghost from_gives = { λ _ e. e ≡ faults.NoMemory };

    fn from(_: NoMemory) -> HopFault {
        HopFault::NoMemory
    }
}

impl From<AllocError> for HopFault {
    ghost from_gives = { λ _ e. e ≡ faults.NoMemory };

    fn from(_: AllocError) -> HopFault {
        HopFault::NoMemory
    }
}

impl<T: Drop> From<AllocFailed<T>> for HopFault {
    ghost from_gives = { λ _ e. e ≡ faults.NoMemory };

    fn from(_: AllocFailed<T>) -> HopFault {
        HopFault::NoMemory
    }
}

/// A step that keeps all rules but on digests breaks none but that.
impl From<StepFault> for HopFault {
    ghost use Rattle.hop_script.specs.Hop.{fault_of};

    ghost from_gives = { λ fault e. e ≡ fault_of fault };

    fn from(fault: StepFault) -> HopFault {
        match fault {
            StepFault::NoMemory => HopFault::NoMemory,
            StepFault::Broken(_) => HopFault::OneName,
        }
    }
}
