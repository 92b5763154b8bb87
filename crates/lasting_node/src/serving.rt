//! Serving lines over any file, output and input.

ghost use Rattle.std.specs.Prelude.{◌≡◌, ◌∷◌, OnOk, IfOk};
ghost use Rattle.lasting_lines.specs.Files.{Aside};
ghost use Rattle.lasting_lines.specs.Serving.{Explains, KeepsReady};
ghost use Rattle.lasting_lines.specs.Opening.{BeginsExplained};
ghost use Rattle.node_lines.specs.Texts.{ready_text};
ghost use Rattle.lasting_node.specs.Machines.{node_ways};
ghost use Rattle.lasting_node.specs.Runs.{ready_of, EndsReady};

use crate::machine::NodeMachine;
use channel_values::person_name;
use lasting_lines::{Fault, Outside, Played, Source, serve};
use network::Party;
use node_lines::{Ready, ready_text};
use std::alloc::Global;

// A number in 32 bits; there are never more calls.
fn counted(number: usize) -> Result<u32, Fault>
    ensures { IfOk result (λ n. n ≡ number) }
{
    match u32::try_from(number) {
        Ok(number) => Ok(number),
        Err(_) => Err(Fault::NoMemory),
    }
}

/// What is said of a node before the first line is read.
pub fn ready_of(played: &Played<NodeMachine>) -> Result<Ready, Fault>
    ensures { IfOk result (λ ready. ready ≡ ready_of played.now) }
{
    let node = &played.machine.node;
    let key = node.key();
    let waits = counted(played.machine.waiting.as_slice().len())?;
    Ok(Ready {
        count: played.count,
        mark: played.mark,
        key: *key,
        name: person_name(key),
        seen: node.seen(),
        used: node.used(),
        limit: node.limit(),
        waits,
    })
}

fn write_ready<O: Outside>(
    alloc: Global,
    outside: &mut O,
    played: &Played<NodeMachine>,
) -> Result<(), Fault>
    ensures written { OnOk result (O.ops outside.new
        ≡ Aside (ready_text (ready_of played.now)) ∷ O.ops outside.old) }
    ensures moments { Explains node_ways (O.ops outside.old) played.now (O.ops outside.new) }
    ensures ready { OnOk result (KeepsReady node_ways (O.ops outside.old) played.now (O.ops outside.new) played.now) }
{
    let ready = ready_of(played)?;
    match ready_text(alloc, &ready) {
        Ok(text) => outside.write_aside(&text),
        Err(_) => Err(Fault::NoMemory),
    }
}

/// Writes the responses again that were asked for and the line `ready`, and serves the lines of a source to its end.
pub fn serve_node<O: Outside, S: Source>(
    alloc: Global,
    outside: &mut O,
    played: &mut Played<NodeMachine>,
    again: &[u8],
    source: &mut S,
) -> Result<(), Fault>
    // At each moment, whatever a crash leaves of the file explains all that was written.
    ensures moments { BeginsExplained node_ways played.old again.now (O.ops outside.old) (O.ops outside.new) }

    // At the end all lines that were taken are on the disk, and all responses are written.
    ensures ready { OnOk result (EndsReady played.old again.now (O.ops outside.old) (O.ops outside.new) played.new) }
{
    played.resume(outside, again)?;
    write_ready(alloc, outside, played)?;
    serve(alloc, outside, played, source)
}
