//! Pictures: from the text or the record of a run to the picture that was written.
#![tactic(auto)]

mod drawing;

pub use drawing::{Status, Undrawn, draw};
