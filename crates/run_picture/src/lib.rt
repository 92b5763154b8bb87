//! A picture of a run: who called what when, what was refused, how each channel stood and where the money went.
#![tactic(auto)]

mod bands;
mod columns;
mod flows;
mod frame;
mod lanes;
mod legend;
mod money;
mod names;
mod panel;
mod picture;
mod px;
mod receivers;
mod shapes;
mod style;
mod svg;
mod times;

pub use picture::picture_of;
