//! Each task, handed to the library call that does it.

ghost use Rattle.std.specs.Prelude.{◌≡◌, IfOk, IsErr};
ghost use Rattle.script_run.specs.Promises.{sunk};
ghost use Rattle.script_run.specs.Run.{given};
ghost use Rattle.nitro.specs.Doing.{IsAnswered, IsDone, IsDoneAsJson, code_of};

use crate::actors::unseeing;
use crate::asking::Task;
use byte_streams::{Sink, Source};
use cast_actors::{Equivocator, Idle, Replayer};
use channel_values::{Dest, Label, NoMemory};
use json_lines::{JsonFault, KeptText, put_as_json};
use picture::draw;
use record_checker::{run_check, run_show};
use script_lint::run_lint;
use script_run::{Ended, RecordStatus, RouteEnded, run_record, run_route, run_words};
use std::alloc::Global;
use std::sync::Wait;
use std::thread::Threads;
use tower_replay::run_tower;

/// How a task ended.
#[derive(Drop)]
pub enum Done {
    Played(Ended),
    Routed(RouteEnded),
    Recorded(RecordStatus),
    /// Of `check`, `tower` and `show`.
    Checked(record_checker::Status),
    Drawn(picture::Status),
    Linted(script_lint::Status),
    /// The output failed while JSON was written.
    Unwritten,
}

impl Done {
    /// The status number that the program ends with.
    pub fn code(&self) -> u8
        ensures { result ≡ code_of self.now }
    {
        match self {
            Done::Played(ended) => ended.status.code(),
            Done::Routed(ended) => ended.status.code(),
            Done::Recorded(status) => status.code(),
            Done::Checked(status) => status.code(),
            Done::Drawn(status) => status.code(),
            Done::Linted(status) => status.code(),
            Done::Unwritten => 5,
        }
    }

    /// The step at which a script is refused, if it is refused at one.
    pub(crate) fn broken_step(&self) -> Option<u32> {
        match self {
            Done::Played(ended) => match ended.status {
                script_run::Status::Script(step, _) => Some(step),
                _ => None,
            },
            Done::Recorded(RecordStatus::Ran(script_run::Status::Script(step, _))) => Some(*step),
            Done::Linted(script_lint::Status::Script(step, _)) => Some(*step),
            _ => None,
        }
    }
}

/// Does a task: hands the arguments, the source and the sink to the call that does it, whose contract has all that is
/// promised. A picture takes labels too. In a race three actors act beside the nodes: one plays old challenges again,
/// one answers a challenge in two ways, and one rests.
pub(crate) fn perform<R: Threads + Wait + Sync, S: Source, K: Sink>(
    rt: &R,
    alloc: Global,
    task: Task,
    words: &[Label],
    labels: &[(Dest, Label)],
    source: &mut S,
    sink: &mut K,
) -> Result<Done, NoMemory>
    ensures done { IfOk result (λ done. IsDone task (given S.Source words.now source.old source.new)
        (sunk K.Sink sink.old sink.new) done) }
    ensures nothing { IsErr result → (source.new ≡ source.old) × (sink.new ≡ sink.old) }
{
    let mut cast = Vec::new(alloc);
    cast.push(unseeing(alloc, 101, Box::new(alloc, Replayer)?))?;
    let equivocator = Equivocator::make(alloc)?;
    cast.push(unseeing(alloc, 102, Box::new(alloc, equivocator)?))?;
    cast.push(unseeing(alloc, 103, Box::new(alloc, Idle::make())?))?;
    match task {
        Task::Play => {
            let ended = run_words(rt, alloc, words, source, sink, cast);
            Ok(Done::Played(ended))
        }
        Task::Record => {
            let status = run_record(rt, alloc, words, source, sink, cast);
            Ok(Done::Recorded(status))
        }
        Task::Route => Ok(Done::Routed(run_route(alloc, words, sink))),
        Task::Check => Ok(Done::Checked(run_check(alloc, words, source, sink))),
        Task::Tower => Ok(Done::Checked(run_tower(rt, alloc, words, source, sink))),
        Task::Show => Ok(Done::Checked(run_show(alloc, words, source, sink))),
        Task::Picture => Ok(Done::Drawn(draw(alloc, words, labels, source, sink))),
        Task::Lint => Ok(Done::Linted(run_lint(alloc, words, source, sink))),
    }
}

/// Does a task, and writes the lines of its text as JSON: the text is kept in memory until the task is done.
fn perform_as_json<R: Threads + Wait + Sync, S: Source, K: Sink>(
    rt: &R,
    alloc: Global,
    task: Task,
    words: &[Label],
    labels: &[(Dest, Label)],
    source: &mut S,
    sink: &mut K,
) -> Result<Done, NoMemory>
    ensures done { IfOk result (λ done. IsDoneAsJson task (given S.Source words.now source.old source.new)
        (sunk K.Sink sink.old sink.new) done) }
    ensures nothing { IsErr result → sink.new ≡ sink.old }
{
    let mut text = KeptText::new(alloc);
    let done = perform(rt, alloc, task, words, labels, source, &mut text)?;
    if text.faults != 0 {
        return Err(NoMemory);
    }
    match put_as_json(alloc, &text.bytes, sink) {
        Ok(()) => Ok(done),
        Err(JsonFault::NoMemory) => Err(NoMemory),
        Err(JsonFault::Sink) => Ok(Done::Unwritten),
    }
}

/// Does a task, and writes its text, or that text as JSON.
pub(crate) fn perform_either<R: Threads + Wait + Sync, S: Source, K: Sink>(
    rt: &R,
    alloc: Global,
    as_json: bool,
    task: Task,
    words: &[Label],
    labels: &[(Dest, Label)],
    source: &mut S,
    sink: &mut K,
) -> Result<Done, NoMemory>
    ensures done { IfOk result (λ done. IsAnswered as_json task (given S.Source words.now source.old source.new)
        (sunk K.Sink sink.old sink.new) done) }
    ensures nothing { IsErr result → sink.new ≡ sink.old }
{
    if as_json {
        perform_as_json(rt, alloc, task, words, labels, source, sink)
    } else {
        perform(rt, alloc, task, words, labels, source, sink)
    }
}
