//! Sinks in memory, for tests and for programs that keep the text.

ghost use Rattle.std.specs.Prelude.{◌≡◌, ◌≤◌, ◌<◌, ◌+◌, ◌-◌, ◌^◌, ◌⊎◌, ℕ, Some, None, [], IfOk, Contains, length, max, min, vec_capacity};
ghost use Rattle.byte_streams.specs.OutsideSource.{Rose};
ghost use Rattle.byte_streams.specs.OutsideSink.{PutGives};

use crate::sink::{Gave, Sink};
use channel_values::NoMemory;
use std::alloc::Global;

/// Takes all bytes, keeps none and shows none.
#[derive(Drop)]
pub struct CalmSink;

impl Sink for CalmSink {
    ghost held = { λ s. None };

    ghost faults = { λ s. 0 };

    fn put(&mut self, piece: &[u8]) -> Gave
        ensures gives { PutGives None None piece.now result }
        ensures later { 0 ≤ 0 }
        ensures failed { result ≡ Gave.Failed → Rose 0 0 }
        ensures whole { result ≡ Gave.Took (length piece.now) }
    {
        Gave::Took(piece.len())
    }
}

/// Keeps the bytes. It fails at the calls of a list, and where no room is left.
#[derive(Drop)]
pub struct ListSink<'a> {
    pub bytes: Vec<u8>,
    /// The calls that fail, numbered from 0.
    pub failing: &'a [u64],
    /// At most so many bytes of a piece are taken.
    pub most: usize,
    pub calls: u64,
    pub faults: u64,
}

impl<'a> ListSink<'a> {
    /// Takes room for `room` bytes, and of each piece at most `most` bytes, which is at least 1.
    pub fn make(
        alloc: Global,
        room: usize,
        most: usize,
        failing: &'a [u64],
    ) -> Result<ListSink<'a>, NoMemory>
        ensures room { IfOk result (λ sink. room ≤ vec_capacity sink.bytes) }
        ensures empty { IfOk result (λ sink. sink.bytes.items ≡ []) }
        ensures failing { IfOk result (λ sink. sink.failing.now ≡ failing.now) }
        ensures most { IfOk result (λ sink. sink.most ≡ most) }
        ensures calls { IfOk result (λ sink. sink.calls ≡ 0) }
        ensures faults { IfOk result (λ sink. sink.faults ≡ 0) }
    {
        let bytes = Vec::with_capacity(alloc, room)?;
        Ok(ListSink {
            bytes,
            failing,
            most,
            calls: 0,
            faults: 0,
        })
    }
}

impl Sink for ListSink<'_> {
    ghost held = { λ s. Some s.bytes.items };

    ghost faults = { λ s. s.faults };

    fn put(&mut self, piece: &[u8]) -> Gave
        ensures gives { PutGives (Some self.old.bytes.items) (Some self.new.bytes.items) piece.now result }
        ensures later { self.old.faults ≤ self.new.faults }
        ensures failed { result ≡ Gave.Failed → Rose self.old.faults self.new.faults }
        ensures listed { Contains self.old.failing.now self.old.calls → result ≡ Gave.Failed }

        // It fails for no other cause than the list and want of room, and else takes as much as it may.
        ensures caused { result ≡ Gave.Failed → Contains self.old.failing.now self.old.calls
            ⊎ (vec_capacity self.old.bytes - length self.old.bytes.items
            < min (length piece.now) (max self.old.most 1)) }
        ensures took { (n : ℕ) → result ≡ Gave.Took n → n ≡ min (length piece.now) (max self.old.most 1) }
        ensures counted { self.new.calls ≡ min (self.old.calls + 1) (2 ^ 64 - 1) }
        ensures failing { self.new.failing.now ≡ self.old.failing.now }
        ensures most { self.new.most ≡ self.old.most }
    {
        let call = self.calls;
        self.calls = self.calls.saturating_add(1);
        let count = piece.len().min(self.most.max(1));
        let room = self.bytes.capacity() - self.bytes.len();
        if self.failing.contains(&call) || room < count {
            self.faults = self.faults.saturating_add(1);
            return Gave::Failed;
        }
        let (first, _) = piece.split_at(count);
        self.bytes.extend_from_slice(first).unwrap();
        Gave::Took(count)
    }
}
