//! Why a load has no script.

ghost use Rattle.std.specs.Prelude.{◌≡◌};

use channel_values::NoMemory;
use std::alloc::{AllocError, AllocFailed};
use std::error::Error;
use std::fmt;

/// Why a load has no script.
#[derive(Clone, Copy, Debug, PartialEq, Eq)]
pub enum LoadFault {
    NoMemory,
    /// The keys of the two people have one digest, so that a script could not distinguish them.
    OneName,
}

impl fmt::Display for LoadFault {
    ghost use Rattle.std.specs.Prelude.{Some};
    ghost use Rattle.script_run.specs.Messages.{fault_words};

    ghost output = { λ x. Some (fault_words x) };

    fn fmt<W: fmt::Write>(&self, f: &mut fmt::Formatter<W>) -> fmt::Result {
        match self {
            LoadFault::NoMemory => write!(f, "out of memory"),
            LoadFault::OneName => write!(f, "both people have one name"),
        }
    }
}

impl Error for LoadFault {}

impl From<NoMemory> for LoadFault {
    ghost use Rattle.script_run.specs.declared.fault.LoadFault.TheVariants as faults;

    ghost from_gives = { λ _ e. e ≡ faults.NoMemory };

    fn from(_: NoMemory) -> LoadFault {
        LoadFault::NoMemory
    }
}

impl From<AllocError> for LoadFault {
    ghost use Rattle.script_run.specs.declared.fault.LoadFault.TheVariants as faults;

    ghost from_gives = { λ _ e. e ≡ faults.NoMemory };

    fn from(_: AllocError) -> LoadFault {
        LoadFault::NoMemory
    }
}

impl<T: Drop> From<AllocFailed<T>> for LoadFault {
    ghost use Rattle.script_run.specs.declared.fault.LoadFault.TheVariants as faults;

    ghost from_gives = { λ _ e. e ≡ faults.NoMemory };

    fn from(_: AllocFailed<T>) -> LoadFault {
        LoadFault::NoMemory
    }
}
