//! What a ledger sets aside for a channel on it.

use channel_values::Name;

/// What a ledger of two people sets aside for a channel, and what of it comes from each.
#[derive(Clone, Copy, Debug, PartialEq, Eq)]
pub struct Child {
    pub asset: u32,
    pub name: Name,
    pub first: Name,
    pub second: Name,
    pub a: u64,
    pub b: u64,
}
