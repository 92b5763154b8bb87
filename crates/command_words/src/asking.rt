//! What the program may be asked for.

/// What the words of the program ask for.
#[derive(Clone, Copy, Debug, PartialEq, Eq)]
pub enum Asked {
    /// `run`: a script is read and played.
    Run,
    /// `race`: a script is read and played by rounds in threads.
    Race,
    /// `load`: a script of so many payments, 1 to 1,000, is made from a seed and played.
    Load { seed: u64, count: u32 },
}
