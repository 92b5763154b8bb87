//! An object of one thread, shared by many callers, with one history for all of them.
//!
//! A `Book` keeps the object and the entries of the calls that were made on it. A caller has a
//! `Seat`, which knows what it has seen of the history and which of the calls it made.
#![tactic(auto)]

mod book;
mod desk;
mod no_memory;
mod one_thread;
mod rule;
mod seat;
mod turn;

pub use book::{Book, OddPart, StillOut};
pub use desk::{Answer, BookFault};
pub use no_memory::NoMemory;
pub use one_thread::OneThread;
pub use seat::Seat;
