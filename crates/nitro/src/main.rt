//! The program. It reads the arguments after its name, hands what they ask for to the one library call that does it,
//! and ends with the status of that call. What is promised is in the contracts of those calls.
#![tactic(auto)]

mod actors;
mod advice;
mod asking;
mod closed;
mod doing;
mod kept_source;
mod naming;
mod pages;
mod requests;
mod table;
mod telling;

use asking::{Asked, StateRequest, Task, Wanted, read_words};
use byte_streams::{Sink, Source, StdSink, StdSource};
use channel_values::NoMemory;
use clap::Error;
use doing::perform;
use lasting_ledger::{Start, run_ledger};
use lasting_node::{NodeStart, run_node};
use pages::{Page, page_of};
use requests::do_request;
use std::alloc::Global;
use std::process::ExitCode;
use std::rt::{Env, Files};
use std::sync::Wait;
use std::thread::Threads;
use std::{env, io};
use table::{VERSION, program};

/// The arguments after the program's name. Arguments that aren't text count as none.
fn words<R: Env + AllocGlobal>(rt: &R) -> Result<Vec<String>, NoMemory> {
    let mut words = Vec::new(rt.alloc());
    let args = match env::args(rt) {
        Ok(args) => args,
        Err(e) if e.kind() == io::ErrorKind::OutOfMemory => return Err(NoMemory),
        Err(_) => return Ok(words),
    };
    for word in args.skip(1) {
        words.push(word)?;
    }
    Ok(words)
}

/// Prints what clap has to say: help, with status 0, or what is wrong with the arguments.
fn answer_told<R: Threads + Wait + Sync + Print + Eprint, S: Source + Drop, K: Sink>(
    rt: &R,
    alloc: Global,
    error: &Error,
    is_picture: bool,
    mut input: S,
    output: &mut K,
) -> Result<u8, NoMemory> {
    let printed = error.print(rt);
    if !error.use_stderr() {
        return Ok(if printed.is_ok() { 0 } else { 5 });
    }
    let task = if is_picture {
        Task::Picture
    } else {
        Task::Play
    };
    let done = perform(rt, alloc, task, &[], &[], &mut input, output)?;
    let code = done.code();
    drop(done);
    Ok(code)
}

/// Prints a page, with status 0, or 5 where the output fails.
fn print_page<R: Print>(rt: &R, alloc: Global, page: Page) -> Result<u8, NoMemory> {
    let program = program(alloc)?;
    let text = page_of(alloc, &program, page)?;
    match print!(rt; "{text}") {
        Ok(()) => Ok(0),
        Err(_) => Ok(5),
    }
}

/// Serves a ledger over its state file, with standard input and standard output, and gives the status that it ends
/// with.
fn serve_ledger(rt: &HostRuntime, request: &StateRequest) -> u8 {
    let start = Start {
        path: request.state,
        after: request.after,
        moved: request.is_moved,
    };
    let ended = run_ledger(rt, &start, rt.stdin(), rt.stdout());
    ended.status.code()
}

/// Serves a node over its state file, in the same way.
fn serve_node(rt: &HostRuntime, request: &StateRequest) -> u8 {
    let start = NodeStart {
        path: request.state,
        after: request.after,
        moved: request.is_moved,
    };
    let ended = run_node(rt, &start, rt.stdin(), rt.stdout());
    ended.status.code()
}

/// Answers the arguments.
fn answer<R: Threads + Wait + Sync + Files + Print + Eprint, S: Source + Drop, K: Sink>(
    rt: &R,
    alloc: Global,
    words: &[&str],
    asked: Asked,
    input: S,
    output: &mut K,
) -> Result<u8, NoMemory> {
    match asked {
        Asked::Version => match println!(rt; "nitro {VERSION}") {
            Ok(()) => Ok(0),
            Err(_) => Ok(5),
        },
        Asked::Page(page) => print_page(rt, alloc, page),
        Asked::Told(error) => {
            let is_picture = words.first() == Some(&"picture");
            answer_told(rt, alloc, &error, is_picture, input, output)
        }
        Asked::Task(request) => do_request(rt, alloc, &request, input, output),
    }
}

fn main(rt: HostRuntime) -> ExitCode {
    let alloc = rt.alloc();
    let Ok(words) = words(&rt) else {
        return ExitCode::from(1);
    };
    let mut texts = Vec::new(alloc);
    for word in &words {
        let Ok(()) = texts.push(word.as_str()) else {
            return ExitCode::from(1);
        };
    }
    let asked = match read_words(alloc, &texts) {
        Ok(Wanted::Ledger(request)) => return ExitCode::from(serve_ledger(&rt, &request)),
        Ok(Wanted::Node(request)) => return ExitCode::from(serve_node(&rt, &request)),
        Ok(Wanted::Other(asked)) => asked,
        Err(NoMemory) => return ExitCode::from(1),
    };
    let input = StdSource {
        reader: rt.stdin(),
        faults: 0,
    };
    let mut output = StdSink {
        writer: rt.stdout(),
        faults: 0,
    };
    match answer(&rt, alloc, &texts, asked, input, &mut output) {
        Ok(code) => ExitCode::from(code),
        Err(NoMemory) => ExitCode::from(1),
    }
}
