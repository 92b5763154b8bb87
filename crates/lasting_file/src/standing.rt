//! The outside of a program: each method makes one call of the system, and notes it.

ghost use Rattle.std.specs.Prelude.{◌≡◌, [], is_ok};

use crate::record::Record;
use lasting_lines::{Fault, Outside};
use std::fs::File;
use std::io::{self, Write};

const APPENDED: u64 = 0;

const SYNCED: u64 = 1;

const WRITTEN: u64 = 2;

const ASIDE: u64 = 3;

/// A state file, and the output for the responses.
#[derive(Drop)]
pub struct Standing<W: Write + Drop> {
    file: File,
    output: W,
    calls: Record,
}

impl<W: Write + Drop> Standing<W> {
    /// The file of a `StateFile`, whose records were recovered, and an output.
    pub fn new(file: File, output: W) -> Standing<W>
        ensures { result.calls.events ≡ [] }
    {
        Standing {
            file,
            output,
            calls: Record::new(),
        }
    }
}

impl<W: Write + Drop> Outside for Standing<W> {
    ghost ops = { λ s. s.calls.events };

    fn append(&mut self, bytes: &[u8]) -> Result<(), Fault> {
        self.calls.note(&[APPENDED], bytes);
        no_reason(self.file.write_all(bytes))
    }

    fn sync(&mut self) -> Result<(), Fault> {
        no_reason(self.file.sync_data())?;
        self.calls.note(&[SYNCED], &[]);
        Ok(())
    }

    fn write(&mut self, text: &[u8]) -> Result<(), Fault> {
        self.calls.note(&[WRITTEN], text);
        write_out(&mut self.output, text)
    }

    fn write_aside(&mut self, message: &[u8]) -> Result<(), Fault> {
        self.calls.note(&[ASIDE], message);
        write_out(&mut self.output, message)
    }
}

fn no_reason(answer: io::Result<()>) -> Result<(), Fault>
    ensures { is_ok result ≡ is_ok answer }
{
    match answer {
        Ok(()) => Ok(()),
        Err(_) => Err(Fault::Failed),
    }
}

fn write_out<W: Write>(output: &mut W, text: &[u8]) -> Result<(), Fault> {
    no_reason(output.write_all(text))?;
    no_reason(output.flush())
}
