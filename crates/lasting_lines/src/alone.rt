//! A line by itself, for a caller that keeps the file.

ghost use Rattle.std.specs.Prelude.{◌≡◌, ◌≤◌, ◌+◌, true, false, [], length, IfOk};
ghost use Rattle.lasting_lines.specs.Batches.{IsPart, batched};
ghost use Rattle.lasting_lines.specs.Endings.{EndsBy, IsForeignLine, HasNoNumber};
ghost use Rattle.lasting_lines.specs.Serving.{IsAlone};

use crate::batches::Batch;
use crate::machine::Machine;
use crate::outside::Fault;
use crate::played::{Given, Played};
use std::alloc::Global;

/// What a line gives that is taken by itself.
#[derive(Drop)]
pub struct Alone {
    /// For the file, with its line feed. It has to be on the disk before the text is written. A line that isn't taken has
    /// none.
    pub row: Vec<u8>,
    /// The response, or why the line isn't taken.
    pub text: Vec<u8>,
}

impl<M: Machine> Played<M> {
    /// Takes a line by itself. `Foreign` for a line of another story, `Full` where all numbers of records are used up, or
    /// `NoMemory`. After an `Err` the machine is of no more use.
    pub fn take_alone(&mut self, alloc: Global, line: &[u8]) -> Result<Alone, Fault>
        requires { IsPart line.now }
        ensures ends { EndsBy (IsForeignLine M.ways M.foreign self.old line.now)
            (HasNoNumber M.ways self.old line.now) result }

        // Of a line that is taken, its row and its response.
        ensures taken { M.ways.takes self.old.machine line.now ≡ true → IfOk result (λ alone.
            IsAlone (batched M.ways) self.old line.now alone.row.items alone.text.items self.new) }

        // Of any other line, nothing for the file, and why it isn't taken.
        ensures none { M.ways.takes self.old.machine line.now ≡ false → IfOk result (λ alone. alone.row.items ≡ []) }
        ensures says { M.ways.takes self.old.machine line.now ≡ false → IfOk result (λ alone.
            M.says self.old.machine line.now alone.text.items) }
        ensures same { M.ways.takes self.old.machine line.now ≡ false → self.new ≡ self.old }

        // A row has at most 87 bytes besides its line.
        ensures short { IfOk result (λ alone. length alone.row.items ≤ length line.now + 87) }
    {
        if let Some(text) = self.machine.refusal(alloc, line)? {
            let row = Vec::new(alloc);
            return Ok(Alone { row, text });
        }
        let Batch { lines, answer } = self.begin(alloc, line)?;
        let Given { mut row, text } = self.seal(alloc, &lines, answer)?;
        row.extend_from_slice(b"\n")?;
        Ok(Alone { row, text })
    }
}
