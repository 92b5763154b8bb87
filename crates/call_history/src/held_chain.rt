//! What a participant holds of its own channels.

use channel_values::{Chain, Listed, Name, State};

/// The newest supported chain that a participant holds of a channel.
#[derive(Drop)]
pub struct HeldChain {
    pub channel: Name,
    pub chain: Chain,
}

/// The last state of a channel that a participant signed.
#[derive(Drop)]
pub struct Known {
    pub channel: Name,
    pub last: State,
}

/// The persons of a channel, the position of the participant among them, and the turn that comes next.
#[derive(Drop)]
pub struct Place {
    pub channel: Name,
    pub people: Listed<Name>,
    pub me: u8,
    pub next: u64,
}
