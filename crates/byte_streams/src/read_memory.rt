//! Sources in memory, for tests and for programs that have their bytes.

ghost use Rattle.std.specs.Prelude.{◌≡◌, ◌≢◌, ◌↔◌, ◌≤◌, ◌<◌, ◌+◌, ◌-◌, ◌^◌, [], ◌++◌, Contains, Some, length, min, take};
ghost use Rattle.byte_streams.specs.OutsideSource.{Rose, TakeGives};

use crate::source::{Source, Took};

/// The bytes of a slice, never failing.
#[derive(Drop)]
pub struct CalmSource<'a> {
    pub bytes: &'a [u8],
}

impl Source for CalmSource<'_> {
    ghost remaining = { λ s. Some s.bytes.now };

    ghost faults = { λ s. 0 };

    fn take(&mut self, into: &mut [u8]) -> Took
        ensures gives { TakeGives (Some self.old.bytes.now) (Some self.new.bytes.now) into.new result }
        ensures later { 0 ≤ 0 }
        ensures failed { result ≡ Took.Failed → Rose 0 0 }
        ensures whole { result ≡ Took.Got (min (length self.old.bytes.now) (length into.new)) }
    {
        Took::Got(take_front(&mut self.bytes, into))
    }
}

/// The bytes of a slice, failing at the calls of a list.
#[derive(Drop)]
pub struct ListSource<'a> {
    pub bytes: &'a [u8],
    /// The calls that fail, numbered from 0.
    pub failing: &'a [u64],
    pub calls: u64,
    pub faults: u64,
}

impl<'a> ListSource<'a> {
    pub fn make(bytes: &'a [u8], failing: &'a [u64]) -> ListSource<'a>
        ensures bytes { result.bytes.now ≡ bytes.now }
        ensures failing { result.failing.now ≡ failing.now }
        ensures calls { result.calls ≡ 0 }
        ensures faults { result.faults ≡ 0 }
    {
        ListSource {
            bytes,
            failing,
            calls: 0,
            faults: 0,
        }
    }
}

impl Source for ListSource<'_> {
    ghost remaining = { λ s. Some s.bytes.now };

    ghost faults = { λ s. s.faults };

    fn take(&mut self, into: &mut [u8]) -> Took
        ensures gives { TakeGives (Some self.old.bytes.now) (Some self.new.bytes.now) into.new result }
        ensures later { self.old.faults ≤ self.new.faults }
        ensures failed { result ≡ Took.Failed → Rose self.old.faults self.new.faults }
        ensures listed { (result ≡ Took.Failed) ↔ Contains self.old.failing.now self.old.calls }
        ensures counted { self.new.calls ≡ min (self.old.calls + 1) (2 ^ 64 - 1) }
        ensures kept { self.new.failing.now ≡ self.old.failing.now }

        // Else it gives as much as there is place for, and only a failure is counted.
        ensures whole { result ≢ Took.Failed → result ≡ Took.Got (min (length self.old.bytes.now) (length into.new)) }
        ensures calm { result ≢ Took.Failed → self.new.faults ≡ self.old.faults }
        ensures risen { result ≡ Took.Failed → self.new.faults ≡ min (self.old.faults + 1) (2 ^ 64 - 1) }
    {
        let call = self.calls;
        self.calls = self.calls.saturating_add(1);
        if self.failing.contains(&call) {
            self.faults = self.faults.saturating_add(1);
            return Took::Failed;
        }
        Took::Got(take_front(&mut self.bytes, into))
    }
}

/// Copies as many bytes as there is place for, and drops them from the front.
fn take_front(bytes: &mut &[u8], into: &mut [u8]) -> usize
    ensures count { result ≤ length into.new }
    ensures whole { result ≡ min (length bytes.old.now) (length into.new) }
    ensures bytes { bytes.old.now ≡ take result into.new ++ bytes.new.now }
    ensures end { result ≡ 0 → 0 < length into.new → bytes.new.now ≡ [] }
{
    let count = bytes.len().min(into.len());
    let (first, others) = bytes.split_at(count);
    into[..count].copy_from_slice(first);
    *bytes = others;
    count
}
