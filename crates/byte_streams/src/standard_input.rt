//! The source that reads from the system.

use crate::source::{Source, Took};
use std::io::Read;

/// A reader of the system, with a count of its faults. It shows the bytes that its reader shows:
/// standard input shows none.
#[derive(Drop)]
pub struct StdSource<R: Read + Drop> {
    pub reader: R,
    pub faults: u64,
}

impl<R: Read + Drop> Source for StdSource<R> {
    ghost remaining = { λ s. R.Read.remaining s.reader };

    ghost faults = { λ s. s.faults };

    fn take(&mut self, into: &mut [u8]) -> Took {
        match self.reader.read(into) {
            Ok(count) => Took::Got(count),
            Err(_) => {
                self.faults = self.faults.saturating_add(1);
                Took::Failed
            }
        }
    }
}
