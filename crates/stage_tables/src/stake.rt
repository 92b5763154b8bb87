//! What two people set aside in a ledger.

use channel_values::Name;

/// What two people are to have of an asset in a ledger, so that a channel can stand on it.
#[derive(Clone, Copy, Debug, PartialEq, Eq)]
pub struct Stake {
    pub asset: u32,
    pub first: Name,
    pub second: Name,
    pub amounts: (u64, u64),
}
