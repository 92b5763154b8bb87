//! How a run ended, for somebody who checks it.

use call_history::{Entry, HeldChain, Known};
use channel_values::{Listed, Name};
use funding_plans::Plan;

/// What a sum is of: what was deposited of an asset, what a channel holds of it, and what a person was paid.
#[derive(Clone, Copy, Debug, PartialEq, Eq)]
pub enum SumOf {
    Deposited,
    Held,
    Paid,
}

/// An amount of an asset: of what, and whose. What was deposited has a name of zeros.
#[derive(Clone, Copy, Debug, PartialEq, Eq)]
pub struct Sum {
    pub kind: SumOf,
    pub name: Name,
    pub asset: u32,
    pub amount: u64,
}

/// How a person with a node ended: its plan, the states that it signed last, the chains that it holds, and what it
/// can get of each asset.
#[derive(Drop)]
pub struct Ending {
    pub person: Name,
    pub plan: Plan,
    pub known: Listed<Known>,
    pub chains: Listed<HeldChain>,
    pub shares: Listed<(u32, u128)>,
}

/// How a run ended: its history in the order of time, the sums of its flows, and the ending of each person with a
/// node.
#[derive(Drop)]
pub struct Record {
    pub history: Listed<Entry>,
    pub sums: Listed<Sum>,
    pub ends: Listed<Ending>,
}
