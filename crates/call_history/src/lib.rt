//! The words that the adjudicator and its callers share, and what histories of them mean.
#![tactic(auto)]

mod answering;
mod balances;
mod call;
mod channel_views;
mod display;
mod entry;
mod event;
mod flows;
mod funds;
mod held_chain;
mod items;
mod laws;
mod paid_amounts;
mod refusal;
mod row;
mod standing;
mod states;
mod told;
mod valid;
mod view;

pub use answering::answered;
pub use balances::{deposited, held, held_by_all, paid, paid_to_all};
pub use call::{Call, ChallengeCall, ClaimCall, DepositCall, Op, RespondCall, TransferCall};
pub use channel_views::ChannelViews;
pub use entry::Entry;
pub use event::{Deed, Event, NodeRefusal};
pub use flows::flow_of;
pub use funds::{Due, Flow, Payment};
pub use held_chain::{HeldChain, Known, Place};
pub use items::{listed_dest, place_of, shape_in};
pub use laws::{
    every_legal_history_conserves, laws_of_calls, laws_of_messages,
    no_channel_pays_more_than_it_holds, nobody_holds_more_than_was_deposited, payouts_lower_both,
    same_calls_are_one,
};
pub use paid_amounts::PaidAmounts;
pub use refusal::{Refusal, Reply};
pub use row::{Row, row_or_blank};
pub use standing::{Standing, mode};
pub use states::newest;
pub use told::{fixed_of, time_after, time_set, told_row, top_turn};
pub use valid::parts_are_valid;
pub use view::{ChannelView, WorldView};
