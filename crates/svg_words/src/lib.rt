//! Words of a picture in SVG: text of any bytes, and how a mark is filled.
#![tactic(auto)]

mod fill;
mod text;

pub use fill::Fill;
pub use text::escape;
