//! What a caller knows of the adjudicator's history.

use crate::channel_views::ChannelViews;
use crate::paid_amounts::PaidAmounts;
use channel_values::{Chain, Listed, Name, Outcome};

/// What is known of a channel: its recorded turn, the deadline of an open challenge, what it holds by asset, the
/// newest chain that was shown, the outcome of the last challenge or conclude, and what is left of that.
#[derive(Drop)]
pub struct ChannelView {
    pub channel: Name,
    pub turn: u64,
    pub deadline: Option<u64>,
    pub held: Listed<(u32, u64)>,
    pub shown: Option<Chain>,
    pub settled: Option<Outcome>,
    pub rest: Option<Outcome>,
}

/// What is known after the first `count` entries of a history: the time, the channels, and what each person was paid
/// by asset.
#[derive(Drop)]
pub struct WorldView {
    pub now: u64,
    pub count: u32,
    pub channels: ChannelViews,
    pub paid: PaidAmounts,
}
