//! Why nothing was made or signed.

ghost use Rattle.std.specs.Prelude.{◌≡◌};
ghost use Rattle.lms_signatures.specs.declared.fault.SignFault.TheVariants.{NoMemory};

use std::alloc::AllocError;

/// No memory was left.
#[derive(Clone, Copy, Debug, PartialEq, Eq)]
pub struct NoMemory;

impl From<AllocError> for NoMemory {
    fn from(_e: AllocError) -> NoMemory {
        NoMemory
    }
}

/// Why nothing was signed.
#[derive(Clone, Copy, Debug, PartialEq, Eq)]
pub enum SignFault {
    /// All indices have signed: so many.
    KeySpent(u32),
    /// No memory was left.
    NoMemory,
}

impl From<AllocError> for SignFault {
    ghost from_gives = { λ _ e. e ≡ NoMemory };

    fn from(_e: AllocError) -> SignFault {
        SignFault::NoMemory
    }
}
