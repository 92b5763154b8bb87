//! A test crate: a counter that threads share through a book. No program rests on it.
#![tactic(auto)]

#[cfg(test)]
mod actors;
mod callers;
mod counter;
#[cfg(test)]
mod crews;
#[cfg(test)]
mod gate;
#[cfg(test)]
mod rounds;
mod seats;
#[cfg(test)]
mod tests;

pub use callers::{Tally, enter_ones, two_callers};
pub use counter::{Addition, Counter};
pub use seats::{deal, gather, round};
