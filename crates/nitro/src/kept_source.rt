//! A source with a copy of what was read.

ghost use Rattle.std.specs.Prelude.{◌≡◌, ◌≤◌, ◌++◌, ℕ, [], true, Some, None, take, if◌then◌else◌};
ghost use Rattle.std.specs.Option.{option_copied};
ghost use Rattle.byte_streams.specs.OutsideSource.{Rose, TakeGives};

use byte_streams::{Source, Took};
use std::alloc::Global;

/// A source, and a copy of what was read of it. The copy is whole unless memory ran out.
#[derive(Drop)]
pub(crate) struct KeptSource<S: Source + Drop> {
    pub(crate) source: S,
    copy: Vec<u8>,
    is_whole: bool,
}

impl<S: Source + Drop> KeptSource<S> {
    pub(crate) fn new(alloc: Global, source: S) -> KeptSource<S>
        ensures source { result.source ≡ source }
        ensures copy { result.copy.items ≡ [] }
        ensures whole { result.is_whole ≡ true }
    {
        KeptSource {
            source,
            copy: Vec::new(alloc),
            is_whole: true,
        }
    }

    /// What was read, unless memory ran out for the copy.
    pub(crate) fn copy(&self) -> Option<&[u8]>
        ensures { option_copied result ≡ (if self.now.is_whole then Some self.now.copy.items else None) }
    {
        if self.is_whole {
            Some(&self.copy)
        } else {
            None
        }
    }
}

impl<S: Source + Drop> Source for KeptSource<S> {
    ghost remaining = { λ s. S.remaining s.source };

    ghost faults = { λ s. S.faults s.source };

    fn take(&mut self, into: &mut [u8]) -> Took
        ensures gives { TakeGives (S.remaining self.old.source) (S.remaining self.new.source) into.new result }
        ensures later { S.faults self.old.source ≤ S.faults self.new.source }
        ensures failed { result ≡ Took.Failed → Rose (S.faults self.old.source) (S.faults self.new.source) }
        ensures copied { (n : ℕ) → self.new.is_whole ≡ true → result ≡ Took.Got n
            → self.new.copy.items ≡ self.old.copy.items ++ take n into.new }
    {
        let took = self.source.take(into);
        if let Took::Got(count) = took {
            if self.copy.extend_from_slice(&into[..count]).is_err() {
                self.is_whole = false;
            }
        }
        took
    }
}
