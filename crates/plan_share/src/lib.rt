//! What a participant can get of each asset, and whether its plan is funded, by its view and the states that it signed
//! last.
#![tactic(auto)]

mod amounts;
mod endings;
mod funded;
mod owed;
mod page;
mod reach;
mod worth;

pub use funded::is_funded;
pub use owed::is_owed;
pub use worth::share;
