//! Serving lines one after another.

ghost use Rattle.std.specs.Prelude.{OnOk};
ghost use Rattle.lasting_lines.specs.Batches.{IsPart, batched, Holds};
ghost use Rattle.lasting_lines.specs.Lines.{IsLine};
ghost use Rattle.lasting_lines.specs.Serving.{Explains, KeepsReady};
ghost use Rattle.lasting_lines.specs.Opening.{BeginsExplained, BeginsReady};

use crate::batches::Batch;
use crate::machine::Machine;
use crate::outside::{Fault, Outside};
use crate::played::{Given, Played};
use crate::source::Source;
use std::alloc::Global;

// Keeps a batch: its record is on the disk before its response is written. After an `Err` the file has to be recovered
// anew. The machine was at q before the lines of the batch.
fn keep<O: Outside, M: Machine>(
    alloc: Global,
    outside: &mut O,
    played: &mut Played<M>,
    batch: Batch,
) -> Result<(), Fault>
    requires { IsLine batch.lines.items }

    // At each moment, whatever a crash leaves of the file explains all that was written.
    ensures moments { (q : Played M) → Holds M.ways q played.old batch.lines.items batch.answer.items
        → Explains (batched M.ways) (O.ops outside.old) q (O.ops outside.new) }

    // Then the next line can come.
    ensures ready { (q : Played M) → Holds M.ways q played.old batch.lines.items batch.answer.items
        → OnOk result (KeepsReady (batched M.ways) (O.ops outside.old) q (O.ops outside.new) played.new) }
{
    let Batch { lines, answer } = batch;
    let Given { mut row, text } = played.seal(alloc, &lines, answer)?;
    row.extend_from_slice(b"\n")?;
    outside.append(&row)?;
    outside.sync()?;
    outside.write(&text)
}

/// Takes a line, with those after it that the source holds already, or writes why it isn't taken. After an `Err` the file
/// has to be recovered anew.
pub fn answer<O: Outside, M: Machine, S: Source>(
    alloc: Global,
    outside: &mut O,
    played: &mut Played<M>,
    source: &mut S,
    line: &[u8],
) -> Result<(), Fault>
    requires { IsPart line.now }

    // At each moment, whatever a crash leaves of the file explains all that was written.
    ensures moments { Explains (batched M.ways) (O.ops outside.old) played.old (O.ops outside.new) }

    // Then the next line can come.
    ensures ready { OnOk result
        (KeepsReady (batched M.ways) (O.ops outside.old) played.old (O.ops outside.new) played.new) }
{
    if let Some(message) = played.machine.refusal(alloc, line)? {
        return outside.write_aside(&message);
    }
    let gathered = played.gather(alloc, source, line)?;
    keep(alloc, outside, played, gathered.batch)?;
    match gathered.refused {
        Some(message) => outside.write_aside(&message),
        None => Ok(()),
    }
}

/// Serves the lines of a source to its end.
pub fn serve<O: Outside, M: Machine, S: Source>(
    alloc: Global,
    outside: &mut O,
    played: &mut Played<M>,
    source: &mut S,
) -> Result<(), Fault>
    ensures moments { Explains (batched M.ways) (O.ops outside.old) played.old (O.ops outside.new) }
    ensures ready { OnOk result
        (KeepsReady (batched M.ways) (O.ops outside.old) played.old (O.ops outside.new) played.new) }
{
    for _ in 0..u64::MAX {
        let Some(line) = source.line(alloc)? else {
            return Ok(());
        };
        answer(alloc, outside, played, source, &line)?;
    }
    Err(Fault::Full)
}

impl<M: Machine> Played<M> {
    /// Writes the responses again that were asked for, of a file that was found whole. Then lines can come.
    pub fn resume<O: Outside>(&self, outside: &mut O, again: &[u8]) -> Result<(), Fault>
        ensures moments { BeginsExplained (batched M.ways) self.now again.now (O.ops outside.old) (O.ops outside.new) }
        ensures ready { OnOk result (BeginsReady (batched M.ways) self.now again.now (O.ops outside.old) (O.ops outside.new)) }
    {
        outside.write(again)
    }
}

/// A whole run over a file that was found whole: the responses that were asked for, and then those to the lines of a
/// source.
pub fn run<O: Outside, M: Machine, S: Source>(
    alloc: Global,
    outside: &mut O,
    played: &mut Played<M>,
    again: &[u8],
    source: &mut S,
) -> Result<(), Fault>
    ensures moments { BeginsExplained (batched M.ways) played.old again.now (O.ops outside.old) (O.ops outside.new) }
{
    played.resume(outside, again)?;
    serve(alloc, outside, played, source)
}
