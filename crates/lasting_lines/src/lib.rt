//! Serves lines over a state file, so that what left a program survives a crash.
//!
//! The file holds the lines that were taken. Each has one record, and the record is on the disk before the response to
//! its line is written. A restart plays the file again, and so comes to the same machine and the same responses.
//!
//! A record is one row of text: its number, its mark (64 hexadecimal digits) and the line, separated by spaces and
//! ended by a line feed. The mark is SHA-256 of the mark before it, the line, a line feed and the machine's answer.
//!
//! Lines that a source holds already share a record, and so one sync. Then the line of the record is these lines with the
//! byte 30 between two of them, and the answer is theirs one after the other.
#![tactic(auto)]

mod alone;
mod batches;
mod laws;
mod machine;
mod outside;
mod played;
mod recovery;
mod rows;
mod serving;
mod source;

pub use alone::Alone;
pub use batches::SEPARATOR;
pub use laws::one_story;
pub use machine::Machine;
pub use outside::{Fault, Outside};
pub use played::{Given, Mark, Played};
pub use recovery::{Found, recover};
pub use rows::{Split, split_line, split_row};
pub use serving::{answer, run, serve};
pub use source::Source;
