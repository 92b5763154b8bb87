//! How a hop ends.

/// How a hop ends: its people close every channel together, or each leaves with its own calls.
#[derive(Clone, Copy, Debug, PartialEq, Eq)]
pub enum Ending {
    Close,
    Exit,
}
