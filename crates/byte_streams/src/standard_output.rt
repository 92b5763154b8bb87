//! The sink that writes to the system.

use crate::sink::{Gave, Sink};
use std::io::Write;

/// A writer of the system, with a count of its faults. It shows the bytes that its writer shows:
/// standard output shows none.
#[derive(Drop)]
pub struct StdSink<W: Write + Drop> {
    pub writer: W,
    pub faults: u64,
}

impl<W: Write + Drop> Sink for StdSink<W> {
    ghost held = { λ s. W.Write.contents s.writer };

    ghost faults = { λ s. s.faults };

    fn put(&mut self, piece: &[u8]) -> Gave {
        match self.writer.write(piece) {
            Ok(count) if count > 0 || piece.is_empty() => Gave::Took(count),
            _ => {
                self.faults = self.faults.saturating_add(1);
                Gave::Failed
            }
        }
    }
}
