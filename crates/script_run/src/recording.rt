//! From arguments and a source to what was played, and the bytes of its record that were written.

ghost use Rattle.std.specs.Prelude.{◌≡◌, ◌≤◌, ℕ, List, [], Some, None, All, IfOk, IfSome, IsNone, length};
ghost use Rattle.std.specs.Option.{option_copied};
ghost use Rattle.network_rounds.specs.Views.{players};
ghost use Rattle.node_guarantees.specs.Ways.{ways};
ghost use Rattle.script_run.specs.Laws.{IsLegalIn};
ghost use Rattle.script_run.specs.Promises.{IsRecording, sunk};
ghost use Rattle.script_run.specs.Recording.{is_play, asked_of, AsksForRace, RunEnds, EndsAs};
ghost use Rattle.script_run.specs.declared.status.Status.{Status};
ghost use Rattle.network_rounds.specs.Players.{Player};
ghost use Rattle.script_run.specs.Run.{Given, given, owed};
ghost use Rattle.script_run.specs.Run as runs;
ghost use Rattle.script_run.specs.declared.run.Status.{Status as RanAs};

use crate::keeping::keeps_record;
use crate::report_laws::{plays_have_sound_records, races_have_sound_records, records_have_sums};
use crate::run::{Ended as RunEnded, Status as Ran, end_in_one_thread, end_in_race, line_of};
use crate::status::Status;
use byte_streams::{Sink, Source, put_all};
use channel_values::{Label, NoMemory};
use network_node::Node;
use network_rounds::Cast;
use report_text::{Report, record_from};
use run_record::write_record;
use std::alloc::Global;
use std::sync::Wait;
use std::thread::Threads;

/// How a recording ends, and the bytes that it owes.
#[derive(Drop)]
struct Ended {
    status: Status,
    bytes: Vec<u8>,
}

fn is_play(words: &[Label]) -> bool
    ensures { result ≡ is_play words.now }
{
    match words {
        [word] => word.as_str() == "run" || word.as_str() == "race",
        _ => false,
    }
}

/// What is to be recorded: the word after `record`.
fn asked_of(words: &[Label]) -> Option<&[Label]>
    ensures { option_copied result ≡ asked_of words.now }
{
    match words {
        [word, rest @ ..] if word.as_str() == "record" && is_play(rest) => Some(rest),
        _ => None,
    }
}

/// The end of a run that was played.
#[tactic(auto, using(crate::proofs::RecordEnds::recorded_end))]
fn recorded(alloc: Global, report: Report) -> Result<Ended, NoMemory>
    requires { IsLegalIn report }
    ensures { (cast : List Player) (g : Given) → RunEnds ways cast g RanAs.Done (Some report)
        → IfOk result (λ ended. EndsAs ways cast g ended.status ended.bytes.items) }
{
    records_have_sums::<Node>();
    plays_have_sound_records::<Node>();
    races_have_sound_records::<Node>();
    let value = record_from(report);
    let mut bytes = Vec::new(alloc);
    if !keeps_record(&value) {
        return Ok(Ended {
            status: Status::PastLimits,
            bytes,
        });
    }
    write_record(&value, &mut bytes)?;
    Ok(Ended {
        status: Status::Ran(Ran::Done),
        bytes,
    })
}

/// An end without a record.
fn lined(alloc: Global, status: Ran) -> Result<Ended, NoMemory>
    ensures { IfOk result (λ ended. (ended.status ≡ Status.Ran status) × (ended.bytes.items ≡ owed status None)) }
{
    let line = line_of(alloc, status)?;
    Ok(Ended {
        status: Status::Ran(status),
        bytes: line.into_bytes(),
    })
}

/// The end of a recording, from the end of a run of the words after `record`.
#[tactic(auto, using(crate::proofs::RecordEnds::played_end, crate::proofs::RecordEnds::lined_end))]
fn end_of_run(alloc: Global, end: Result<RunEnded, NoMemory>) -> Result<Ended, NoMemory>
    requires { IfOk end (λ ended. IfSome ended.report IsLegalIn) }
    ensures { (cast : List Player) (g : Given) (words : List (List ℕ)) → asked_of g.words ≡ Some words
        → IfOk end (λ ended. runs.EndsAs ways cast (record g { words = words }) ended.status ended.report)
        → IfOk result (λ ended. EndsAs ways cast g ended.status ended.bytes.items) }
{
    let ended = end?;
    match ended.report {
        Some(report) => recorded(alloc, report),
        None => lined(alloc, ended.status),
    }
}

/// Writes what an end owes.
#[tactic(auto, using(crate::proofs::RecordPutting::none_put, crate::proofs::RecordPutting::all_put, crate::proofs::RecordPutting::part_put))]
fn put_end<K: Sink>(end: Result<Ended, NoMemory>, sink: &mut K) -> Status
    ensures { (cast : List Player) (g : Given)
        → IfOk end (λ ended. EndsAs ways cast g ended.status ended.bytes.items)
        → IsRecording ways cast g (sunk K.Sink sink.old sink.new) result }
{
    let Ok(ended) = end else {
        return Status::Ran(Ran::NoMemory);
    };
    match put_all(sink, &ended.bytes) {
        Ok(()) => ended.status,
        Err(_) => Status::Ran(Ran::WriteFault),
    }
}

/// Plays the script that it reads, and writes the record of what was played. It starts no thread and waits for nobody,
/// so it returns. It answers nothing where the arguments ask for the record of a race: then nothing was read or
/// written.
pub fn record_in_one_thread<S: Source, K: Sink>(
    alloc: Global,
    words: &[Label],
    source: &mut S,
    sink: &mut K,
) -> Option<Status>
    ensures ends { (cast : List Player) → IfSome result (λ status. IsRecording ways cast
        (given S.Source words.now source.old source.new) (sunk K.Sink sink.old sink.new) status) }
    ensures race { IsNone result → AsksForRace words.now }
    ensures untouched { IsNone result → (source.new ≡ source.old) × (sink.new ≡ sink.old) }
{
    let Some(asked) = asked_of(words) else {
        let end = lined(alloc, Ran::Usage);
        return Some(put_end(end, sink));
    };
    let end = end_in_one_thread::<Node, S>(alloc, asked, source)?;
    let end = end_of_run(alloc, end);
    Some(put_end(end, sink))
}

/// Plays the script that it reads, and writes the record of what was played. What is no race is done in one thread. In
/// a race the cast, of at most 16 actors that have seen nothing, acts beside the nodes.
pub fn run_record<R: Threads + Wait + Sync, S: Source, K: Sink>(
    rt: &R,
    alloc: Global,
    words: &[Label],
    source: &mut S,
    sink: &mut K,
    cast: Vec<Cast>,
) -> Status
    requires few { length cast.items ≤ 16 }
    requires unseen { All (λ c. c.notes.entries.items ≡ []) cast.items }
    ensures { IsRecording ways (players tells told cast.items) (given S.Source words.now source.old source.new)
        (sunk K.Sink sink.old sink.new) result }
{
    if let Some(status) = record_in_one_thread(alloc, words, source, sink) {
        return status;
    }
    let end = end_in_race(rt, alloc, source, cast);
    let end = end_of_run(alloc, end);
    put_end(end, sink)
}
