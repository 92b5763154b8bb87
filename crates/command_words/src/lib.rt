//! What the words of the program ask for.
#![tactic(auto)]

mod asking;
mod laws;
mod number;
mod words;

pub use asking::Asked;
pub use laws::{words_that_are_no_request, words_that_ask, words_with_other_values};
pub use words::asked;
