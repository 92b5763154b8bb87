//! Lines of a reader.

ghost use Rattle.std.specs.Prelude.{IfOk, IfSome};
ghost use Rattle.lasting_lines.specs.Batches.{IsPart};

use lasting_lines::{Fault, Source, split_line};
use std::alloc::Global;
use std::io::Read;

/// The input fails once more bytes than this are held with no line feed among them.
pub const LINE_LIMIT: usize = 1_048_576;

/// A reader, and the bytes that it gave after the last line.
#[derive(Drop)]
pub struct ReaderLines<R: Read + Drop> {
    reader: R,
    held: Vec<u8>,
}

impl<R: Read + Drop> ReaderLines<R> {
    /// A reader that hasn't been read from yet.
    pub fn new(alloc: Global, reader: R) -> ReaderLines<R> {
        ReaderLines {
            reader,
            held: Vec::new(alloc),
        }
    }

    // The first line of what is held.
    fn held_line(&mut self, alloc: Global) -> Result<Option<Vec<u8>>, Fault>
        ensures { IfOk result (λ o. IfSome o (λ line. IsPart line.items)) }
    {
        let Some(split) = split_line(&self.held) else {
            return Ok(None);
        };
        let line = Vec::from_slice(alloc, split.row)?;
        let rest = Vec::from_slice(alloc, split.rest)?;
        self.held = rest;
        Ok(Some(line))
    }
}

impl<R: Read + Drop> Source for ReaderLines<R> {
    /// A line ends at a line feed, or at a separator of batches; bytes after the last of these are no line. `Input` where a
    /// read fails or a line is too long.
    fn line(&mut self, alloc: Global) -> Result<Option<Vec<u8>>, Fault> {
        let mut buffer = [0u8; 65536];
        for _ in 0..=LINE_LIMIT {
            if let Some(line) = self.held_line(alloc)? {
                return Ok(Some(line));
            }
            if self.held.len() > LINE_LIMIT {
                return Err(Fault::Input);
            }
            let Ok(count) = self.reader.read(&mut buffer) else {
                return Err(Fault::Input);
            };
            if count == 0 {
                return Ok(None);
            }
            self.held.extend_from_slice(&buffer[..count])?;
        }
        Err(Fault::Input)
    }

    fn is_held(&self) -> bool {
        split_line(&self.held).is_some()
    }
}
