//! A check of a record, and the line that was written.

ghost use Rattle.std.specs.Prelude.{◌≡◌, ⊤, IfOk, string_bytes};
ghost use Rattle.record_checker.specs.Answering.{given};
ghost use Rattle.record_checker.specs.Running.{IsRun, sunk};
ghost use Rattle.record_checker.specs.Check.{sound_line, check_asked};

use crate::answering::Answering;
use crate::running::run_on_record;
use crate::status::Status;
use byte_streams::{Sink, Source};
use channel_values::{Label, NoMemory};
use run_record::Record;
use std::alloc::{AllocError, Global};

/// Answers a sound record with the number of its entries.
#[derive(Drop)]
struct Check;

/// The line of a sound record of so many entries.
fn sound_line(alloc: Global, entries: usize) -> Result<String, AllocError>
    ensures { IfOk result (λ text. string_bytes text ≡ sound_line entries) }
{
    format!(in alloc; "sound entries {entries}\n")
}

impl Answering for Check {
    ghost asked = { check_asked };

    ghost ready = { λ _. ⊤ };

    fn word(&self) -> &'static str {
        "check"
    }

    fn answer(&self, alloc: Global, value: &Record) -> Result<Vec<u8>, NoMemory> {
        let line = sound_line(alloc, value.history.as_slice().len())?;
        Ok(line.into_bytes())
    }
}

/// Reads a record, checks it, and writes one line.
pub fn run_check<S: Source, K: Sink>(
    alloc: Global,
    words: &[Label],
    source: &mut S,
    sink: &mut K,
) -> Status
    ensures { IsRun check_asked (given S.remaining S.faults words.now source.old source.new)
        (sunk K.held K.faults sink.old sink.new) result }
{
    run_on_record(alloc, &Check, words, source, sink)
}
