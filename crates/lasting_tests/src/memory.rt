//! An outside in memory that keeps its calls, and fails from a given one on.

ghost use Rattle.std.specs.Prelude.{◌≡◌, ◌++◌, ◌∷◌, [], OnOk, OnErr};
ghost use Rattle.lasting_tests.specs.Calls.{ops_of};

use lasting_lines::{Fault, Outside};
use std::alloc::Global;

/// A call, with its bytes.
#[derive(Drop)]
pub enum Call {
    Append(Vec<u8>),
    Sync,
    Write(Vec<u8>),
    WriteAside(Vec<u8>),
}

/// Answers `left` calls, and fails from then on.
#[derive(Drop)]
pub struct Memory {
    alloc: Global,
    calls: Vec<Call>,
    left: u32,
}

impl Memory {
    pub fn new(alloc: Global, left: u32) -> Memory {
        Memory {
            alloc,
            calls: Vec::new(alloc),
            left,
        }
    }

    /// The calls, the oldest first.
    pub fn calls(&self) -> &[Call] {
        self.calls.as_slice()
    }

    fn note(&mut self, call: Call) -> Result<(), Fault>
        ensures ok { OnOk result (self.new.calls.items ≡ self.old.calls.items ++ call ∷ []) }
        ensures err { OnErr result (self.new.calls.items ≡ self.old.calls.items) }
    {
        let Ok(()) = self.calls.push(call) else {
            return Err(Fault::NoMemory);
        };
        Ok(())
    }

    // Counts a call down.
    fn is_answered(&mut self) -> bool
        ensures { self.new.calls ≡ self.old.calls }
    {
        let answered = self.left != 0;
        self.left = self.left.saturating_sub(1);
        answered
    }
}

impl Outside for Memory {
    ghost ops = { λ m. ops_of m.calls.items };

    /// Where it fails the bytes are kept all the same: a part of them may be in the file.
    fn append(&mut self, bytes: &[u8]) -> Result<(), Fault> {
        let copy = Vec::from_slice(self.alloc, bytes)?;
        self.note(Call::Append(copy))?;
        if !self.is_answered() {
            return Err(Fault::Failed);
        }
        Ok(())
    }

    fn sync(&mut self) -> Result<(), Fault> {
        if !self.is_answered() {
            return Err(Fault::Failed);
        }
        self.note(Call::Sync)
    }

    fn write(&mut self, text: &[u8]) -> Result<(), Fault> {
        let copy = Vec::from_slice(self.alloc, text)?;
        if !self.is_answered() {
            return Err(Fault::Failed);
        }
        self.note(Call::Write(copy))
    }

    fn write_aside(&mut self, message: &[u8]) -> Result<(), Fault> {
        let copy = Vec::from_slice(self.alloc, message)?;
        if !self.is_answered() {
            return Err(Fault::Failed);
        }
        self.note(Call::WriteAside(copy))
    }
}
