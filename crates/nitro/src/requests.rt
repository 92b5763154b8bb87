//! Requests of tasks, over standard input or the file that is named.

ghost use Rattle.std.specs.Prelude.{◌≡◌, IfOk, IsErr};
ghost use Rattle.script_run.specs.Promises.{sunk};
ghost use Rattle.script_run.specs.Run.{given};
ghost use Rattle.nitro.specs.Doing.{IsCodeOf};

use crate::advice::key_fault;
use crate::asking::Request;
use crate::closed::Closed;
use crate::doing::{Done, perform_either};
use crate::kept_source::KeptSource;
use crate::naming::play_names;
use crate::telling::tell;
use byte_streams::{Sink, Source, StdSource};
use channel_values::{Dest, Label, NoMemory};
use script_run::Ended;
use std::alloc::Global;
use std::fs;
use std::rt::Files;
use std::sync::Wait;
use std::thread::Threads;

/// Says what is wrong with the keys of the step at which a script is refused, of which this is a copy.
fn tell_keys<R: Eprint>(rt: &R, alloc: Global, script: Option<&[u8]>, done: &Done) {
    let (Some(script), Some(number)) = (script, done.broken_step()) else {
        return;
    };
    if let Ok(Some(fault)) = key_fault(alloc, script, number) {
        let _ = eprintln!(rt; "nitro: step {number}{fault}");
    }
}

/// Does a task, says on standard error why it ended as it did, and gives its status.
fn do_task<R: Threads + Wait + Sync + Eprint, S: Source + Drop, K: Sink>(
    rt: &R,
    alloc: Global,
    request: &Request,
    labels: &[(Dest, Label)],
    source: &mut KeptSource<S>,
    sink: &mut K,
) -> Result<u8, NoMemory>
    ensures code { IfOk result (IsCodeOf request.now.as_json request.now.task
        (given S.Source request.now.words.items source.old.source source.new.source) (sunk K.Sink sink.old sink.new)) }
    ensures nothing { IsErr result → sink.new ≡ sink.old }
{
    let words = request.words.as_slice();
    let done = perform_either(
        rt,
        alloc,
        request.as_json,
        request.task,
        words,
        labels,
        source,
        sink,
    )?;
    tell(rt, alloc, &done);
    tell_keys(rt, alloc, source.copy(), &done);
    let code = done.code();
    drop(done);
    Ok(code)
}

/// Does what was asked for over a source, and gives the status.
fn do_over<R: Threads + Wait + Sync + Eprint, S: Source + Drop, K: Sink>(
    rt: &R,
    alloc: Global,
    request: &Request,
    labels: &[(Dest, Label)],
    source: S,
    sink: &mut K,
) -> Result<u8, NoMemory> {
    let mut source = KeptSource::new(alloc, source);
    let code = do_task(rt, alloc, request, labels, &mut source, sink);
    drop(source);
    code
}

/// Does what was asked for, with standard input or the file that is named, and gives the status.
fn do_labelled<R: Threads + Wait + Sync + Files + Eprint, S: Source + Drop, K: Sink>(
    rt: &R,
    alloc: Global,
    request: &Request,
    labels: &[(Dest, Label)],
    input: S,
    output: &mut K,
) -> Result<u8, NoMemory> {
    let Some(name) = request.file else {
        return do_over(rt, alloc, request, labels, input, output);
    };
    drop(input);
    match fs::open(rt, name) {
        Ok(reader) => {
            let source = StdSource { reader, faults: 0 };
            do_over(rt, alloc, request, labels, source, output)
        }
        Err(error) => {
            let _ = eprintln!(rt; "nitro: can't open {name}: {error}");
            do_over(rt, alloc, request, labels, Closed { faults: 0 }, output)
        }
    }
}

/// The same, with the names of the script that was given for them. Where that can't be played, the status is that of
/// its play.
pub(crate) fn do_request<R: Threads + Wait + Sync + Files + Eprint, S: Source + Drop, K: Sink>(
    rt: &R,
    alloc: Global,
    request: &Request,
    input: S,
    output: &mut K,
) -> Result<u8, NoMemory> {
    let Some(script) = request.names else {
        return do_labelled(rt, alloc, request, &[], input, output);
    };
    let Ended { status, report } = play_names(rt, alloc, script)?;
    if let Some(report) = report {
        let labels = report.labels.as_slice();
        let code = do_labelled(rt, alloc, request, labels, input, output);
        drop(report);
        return code;
    }
    drop(input);
    let report = None;
    let done = Done::Played(Ended { status, report });
    tell(rt, alloc, &done);
    let code = done.code();
    drop(done);
    Ok(code)
}
