//! A sink that keeps a text.

ghost use Rattle.std.specs.Prelude.{◌≡◌, ◌≤◌, ◌≢◌, [], Some, length};
ghost use Rattle.byte_streams.specs.OutsideSource.{Rose};
ghost use Rattle.byte_streams.specs.OutsideSink.{PutGives};

use byte_streams::{Gave, Sink};
use std::alloc::Global;

/// Keeps the bytes. It fails where memory runs out.
#[derive(Drop)]
pub struct KeptText {
    pub bytes: Vec<u8>,
    pub faults: u64,
}

impl KeptText {
    pub fn new(alloc: Global) -> KeptText
        ensures bytes { result.bytes.items ≡ [] }
        ensures faults { result.faults ≡ 0 }
    {
        KeptText {
            bytes: Vec::new(alloc),
            faults: 0,
        }
    }
}

impl Sink for KeptText {
    ghost held = { λ s. Some s.bytes.items };

    ghost faults = { λ s. s.faults };

    fn put(&mut self, piece: &[u8]) -> Gave
        ensures gives { PutGives (Some self.old.bytes.items) (Some self.new.bytes.items) piece.now result }
        ensures later { self.old.faults ≤ self.new.faults }
        ensures failed { result ≡ Gave.Failed → Rose self.old.faults self.new.faults }
        ensures whole { result ≢ Gave.Failed → result ≡ Gave.Took (length piece.now) }
    {
        match self.bytes.extend_from_slice(piece) {
            Ok(()) => Gave::Took(piece.len()),
            Err(_) => {
                self.faults = self.faults.saturating_add(1);
                Gave::Failed
            }
        }
    }
}
