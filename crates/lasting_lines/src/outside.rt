//! A file that only grows, and an output.

ghost use Rattle.std.specs.Prelude.{◌≡◌, ◌∷◌, List, OnOk, OnErr};
ghost use Rattle.lasting_lines.specs.Files.{Op, MayAdd, Appended, Synced, Written, Aside};
ghost use Rattle.lasting_lines.specs.declared.outside.Fault.TheVariants.{NoMemory};

use std::alloc::{AllocError, AllocFailed};

/// Why serving ended.
#[derive(Clone, Copy, Debug, PartialEq, Eq)]
pub enum Fault {
    /// Out of memory.
    NoMemory,
    /// The input failed, or gave a line that is too long.
    Input,
    /// The file or the output failed.
    Failed,
    /// The file can't have more records.
    Full,
    /// The line belongs to another story: what it says isn't what the machine finds. It is not kept, and the run ends.
    Foreign,
}

impl From<AllocError> for Fault {
    ghost from_gives = { λ _ e. e ≡ NoMemory };

    fn from(_e: AllocError) -> Fault {
        Fault::NoMemory
    }
}

impl<T: Drop> From<AllocFailed<T>> for Fault {
    ghost from_gives = { λ _ e. e ≡ NoMemory };

    fn from(_e: AllocFailed<T>) -> Fault {
        Fault::NoMemory
    }
}

/// The state file and the output. Clauses see the calls that were made. After an `Err` no more calls may be made.
pub trait Outside {
    // The calls so far, the newest first.
    ghost ops: { Self → List Op };

    /// Writes at the end of the file. After an `Err` a part of it may be there.
    fn append(&mut self, bytes: &[u8]) -> Result<(), Fault>
        ensures ok { OnOk result (ops self.new ≡ Appended bytes.now ∷ ops self.old) }
        ensures err { OnErr result (MayAdd (Appended bytes.now) (ops self.old) (ops self.new)) };

    /// Returns once all that was appended is on the disk.
    fn sync(&mut self) -> Result<(), Fault>
        ensures ok { OnOk result (ops self.new ≡ Synced ∷ ops self.old) }
        ensures err { OnErr result (ops self.new ≡ ops self.old) };

    /// Writes a text to the output. After an `Err` a part of it may have left.
    fn write(&mut self, text: &[u8]) -> Result<(), Fault>
        ensures ok { OnOk result (ops self.new ≡ Written text.now ∷ ops self.old) }
        ensures err { OnErr result (MayAdd (Written text.now) (ops self.old) (ops self.new)) };

    /// Writes a message that answers no line of the file.
    fn write_aside(&mut self, message: &[u8]) -> Result<(), Fault>
        ensures ok { OnOk result (ops self.new ≡ Aside message.now ∷ ops self.old) }
        ensures err { OnErr result (MayAdd (Aside message.now) (ops self.old) (ops self.new)) };
}
