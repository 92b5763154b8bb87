//! The source of a file that can't be opened.

ghost use Rattle.std.specs.Prelude.{[], Some};

use byte_streams::{Source, Took};

/// A source that fails at once, as a file that can't be opened does.
#[derive(Drop)]
pub(crate) struct Closed {
    pub(crate) faults: u64,
}

impl Source for Closed {
    ghost remaining = { λ _. Some [] };

    ghost faults = { λ s. s.faults };

    fn take(&mut self, _into: &mut [u8]) -> Took {
        self.faults = self.faults.saturating_add(1);
        Took::Failed
    }
}
