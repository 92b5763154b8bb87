//! The lines of a text as JSON, one object a line; and a sink that keeps the text until then.
#![tactic(auto)]

mod kept_text;
mod naming;
mod objects;
mod putting;
mod quoting;

pub use kept_text::KeptText;
pub use objects::json_of;
pub use putting::{JsonFault, put_as_json};
