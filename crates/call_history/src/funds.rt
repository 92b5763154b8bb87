//! Funds that move.

use channel_values::{Dest, Name};

/// Funds that an accepted call moved: out of a channel, or from outside where `from` is none.
#[derive(Clone, Copy, Debug, PartialEq, Eq)]
pub struct Flow {
    pub from: Option<Name>,
    pub to: Dest,
    pub asset: u32,
    pub amount: u64,
}

/// What was paid of one item of a final outcome.
#[derive(Clone, Copy, Debug, PartialEq, Eq)]
pub struct Payment {
    pub channel: Name,
    pub asset: u32,
    pub place: u8,
    pub amount: u64,
}

/// What a transfer or a claim pays: to whom, and how much of which item.
#[derive(Clone, Copy, Debug, PartialEq, Eq)]
pub struct Due {
    pub to: Dest,
    pub place: u8,
    pub amount: u64,
}
