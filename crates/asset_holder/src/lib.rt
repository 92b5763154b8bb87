//! What assets an adjudicator holds, and how outcomes pay them.
#![tactic(auto)]

pub mod amounts;
mod assets;
mod balances;
mod claims;
mod dues;
mod holdings;
mod items;
mod paid;
mod receipts;
mod rests;
mod sources;
mod sums;

pub use balances::Balances;
pub use call_history::Due;
pub use claims::claimable;
pub use dues::{claim_due, transfer_due};
pub use holdings::Holdings;
pub use items::{affordable, lower};
pub use paid::PaidItems;
