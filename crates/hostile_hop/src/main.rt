//! `hostile_hop ROUTE..` plays a script as `nitro run` does, except that its virtual channels take these routes, in
//! the order of the steps that open them. Each is `plain`, `ledger` (the channel is a virtual ledger) or `onward` (it
//! stands on one). Where no argument is left a route is plain. So a script describes a play over two intermediaries
//! in which people lie, stay silent or leave.
#![tactic(auto)]

mod playing;
mod routes;

use byte_streams::{Source, StdSink, StdSource, put_all};
use channel_values::{Label, NoMemory};
use playing::{Played, play_source, unplayed};
use routes::routes_of;
use script_run::Status;
use std::alloc::Global;
use std::process::ExitCode;
use std::rt::Env;
use std::{env, io};

/// The arguments after the program's name. Arguments that aren't text count as none.
fn words<R: Env + AllocGlobal>(rt: &R) -> Result<Vec<Label>, NoMemory> {
    let mut words = Vec::new(rt.alloc());
    let args = match env::args(rt) {
        Ok(args) => args,
        Err(e) if e.kind() == io::ErrorKind::OutOfMemory => return Err(NoMemory),
        Err(_) => return Ok(words),
    };
    for word in args.skip(1) {
        words.push(Label::make(word))?;
    }
    Ok(words)
}

fn played<S: Source>(alloc: Global, words: &[Label], source: &mut S) -> Result<Played, NoMemory> {
    match routes_of(alloc, words)? {
        None => unplayed(alloc, Status::Usage),
        Some(routes) => play_source(alloc, source, &routes),
    }
}

fn main(rt: HostRuntime) -> ExitCode {
    let Ok(words) = words(&rt) else {
        return ExitCode::from(1);
    };
    let mut source = StdSource {
        reader: rt.stdin(),
        faults: 0,
    };
    let mut sink = StdSink {
        writer: rt.stdout(),
        faults: 0,
    };
    let Ok(played) = played(rt.alloc(), &words, &mut source) else {
        return ExitCode::from(1);
    };
    match put_all(&mut sink, &played.text) {
        Ok(()) => ExitCode::from(played.status.code()),
        Err(_) => ExitCode::from(Status::WriteFault.code()),
    }
}
