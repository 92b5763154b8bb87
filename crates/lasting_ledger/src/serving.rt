//! Serving lines over any file, output and input.

ghost use Rattle.std.specs.Prelude.{◌≡◌, ◌∷◌, OnOk, IfOk};
ghost use Rattle.lasting_lines.specs.Files.{Aside};
ghost use Rattle.lasting_lines.specs.Serving.{Explains, KeepsReady};
ghost use Rattle.lasting_lines.specs.Opening.{BeginsExplained};
ghost use Rattle.lasting_ledger.specs.Ledgers.{ledger_ways};
ghost use Rattle.lasting_ledger.specs.Runs.{ready_text, EndsReady};

use crate::machine::LedgerMachine;
use lasting_lines::{Fault, Mark, Outside, Played, Source, serve};
use std::alloc::{AllocError, Global};

/// The line that is written before the first line is read.
#[tactic(auto, unfolding(crate::specs::Runs::ready_text))]
pub fn ready_text(alloc: Global, count: u64, mark: &Mark) -> Result<Vec<u8>, AllocError>
    ensures { IfOk result (λ text. text.items ≡ ready_text count mark.now) }
{
    let digits = hex::encode(alloc, mark)?;
    let text = format!(in alloc; "{{\"effect\":\"ready\",\"n\":{count},\"mark\":\"{digits}\"}}\n")?;
    Ok(text.into_bytes())
}

fn write_ready<O: Outside>(
    alloc: Global,
    outside: &mut O,
    played: &Played<LedgerMachine>,
) -> Result<(), Fault>
    ensures written { OnOk result (O.ops outside.new
        ≡ Aside (ready_text played.now.count played.now.mark) ∷ O.ops outside.old) }
    ensures moments { Explains ledger_ways (O.ops outside.old) played.now (O.ops outside.new) }
    ensures ready { OnOk result (KeepsReady ledger_ways (O.ops outside.old) played.now (O.ops outside.new) played.now) }
{
    let text = ready_text(alloc, played.count, &played.mark)?;
    outside.write_aside(&text)
}

/// Writes the responses again that were asked for and the line `ready`, and serves the lines of a source to its end.
pub fn serve_ledger<O: Outside, S: Source>(
    alloc: Global,
    outside: &mut O,
    played: &mut Played<LedgerMachine>,
    again: &[u8],
    source: &mut S,
) -> Result<(), Fault>
    // At each moment, whatever a crash leaves of the file explains all that was written.
    ensures moments { BeginsExplained ledger_ways played.old again.now (O.ops outside.old) (O.ops outside.new) }

    // At the end all lines that were taken are on the disk, and all responses are written.
    ensures ready { OnOk result (EndsReady played.old again.now (O.ops outside.old) (O.ops outside.new) played.new) }
{
    played.resume(outside, again)?;
    write_ready(alloc, outside, played)?;
    serve(alloc, outside, played, source)
}
