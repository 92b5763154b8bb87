//! Lints scripts: reads one by its rules, and plays nothing.
#![tactic(auto)]

mod lint;

pub use lint::{Status, run_lint};
