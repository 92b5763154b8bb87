//! `hostile_race` plays a script as `nitro race` does, beside a replayer, an equivocator, somebody who begins a
//! message and vanishes, and a flood. With one argument it plays it beside sixteen floods. After the text it prints
//! how many messages the nodes refused as no message.
#![tactic(auto)]

mod flood;
mod vanisher;

ghost use Rattle.std.specs.Prelude.{◌≡◌, []};

use byte_streams::{Sink, Source, StdSink, StdSource, put_all};
use call_bytes::write_message;
use call_history::{Deed, Event, NodeRefusal};
use cast_actors::{Equivocator, Replayer};
use channel_values::{Label, Listed, Name, NoMemory, Outcome, Signed, State, person_name};
use flood::Flood;
use lms_signatures::Signer;
use network_rounds::{Actor, Cast, Notes};
use report_text::Report;
use script_run::{Ended, run_words};
use script_steps::id_of;
use std::alloc::Global;
use std::env;
use std::process::ExitCode;
use std::rt::Env;
use std::sync::Wait;
use std::thread::Threads;
use vanisher::Vanisher;

/// Whether an argument stands after the program's name.
fn has_word<R: Env + AllocGlobal>(rt: &R) -> bool {
    match env::args(rt) {
        Ok(args) => args.count() > 1,
        Err(_) => false,
    }
}

/// The person whose key has height 5 and a seed of 32 bytes 0x11.
fn victim(alloc: Global) -> Result<Name, NoMemory> {
    let seed = [0x11; 32];
    let Ok(signer) = Signer::make(alloc, seed, id_of(&seed), 5) else {
        return Err(NoMemory);
    };
    Ok(person_name(&signer.public()))
}

/// A message: a state of turn 0 without assets, of a channel that nobody has, with no signature.
fn message(alloc: Global) -> Result<Vec<u8>, NoMemory> {
    let Ok(outcome) = Outcome::make(alloc, Vec::new(alloc)) else {
        return Err(NoMemory);
    };
    let Ok(state) = State::make(alloc, 0, false, outcome, Vec::new(alloc)) else {
        return Err(NoMemory);
    };
    let signature = Listed::make(Vec::new(alloc));
    let mut bytes = Vec::new(alloc);
    write_message(&[7; 32], &Signed { state, signature }, &mut bytes)?;
    Ok(bytes)
}

/// Somebody of a cast, who has seen nothing.
fn unseeing(alloc: Global, number: u32, actor: Box<dyn Actor + Send>) -> Cast
    ensures { result.notes.entries.items ≡ [] }
{
    let entries = Vec::new(alloc);
    Cast {
        number,
        actor,
        notes: Notes { entries },
        done: false,
    }
}

fn is_broken(event: &Event) -> bool {
    matches!(&event.deed, Deed::Handled(_, Some(NodeRefusal::BadBytes)))
}

/// How many messages nodes refused as no message.
fn broken(report: &Report) -> usize {
    let mut count = 0usize;
    for journal in report.journals.as_slice() {
        let events = journal.events.as_slice();
        count = count.saturating_add(events.iter().filter(|event| is_broken(event)).count());
    }
    count
}

/// Prints how many messages were refused as none, where there is a report, and gives the status number.
fn told<K: Sink>(alloc: Global, ended: &Ended, sink: &mut K) -> Result<u8, NoMemory> {
    if let Some(report) = &ended.report {
        let line = format!(in alloc; "refused {} BadBytes\n", broken(report))?;
        let _ = put_all(sink, line.as_bytes());
    }
    Ok(ended.status.code())
}

/// Plays the script that the source has beside sixteen floods, and gives the status number.
fn beside_floods<R: Threads + Wait + Sync, S: Source, K: Sink>(
    rt: &R,
    alloc: Global,
    words: &[Label],
    source: &mut S,
    sink: &mut K,
) -> Result<u8, NoMemory> {
    let mut cast = Vec::new(alloc);
    while cast.len() < 16 {
        let flood = Box::new(alloc, Flood::make(alloc))?;
        let number = 101 + cast.len() as u32;
        cast.push(unseeing(alloc, number, flood))?;
    }
    let ended = run_words(rt, alloc, words, source, sink, cast);
    told(alloc, &ended, sink)
}

/// The same beside a replayer, an equivocator, somebody who vanishes, and a flood.
fn beside_four<R: Threads + Wait + Sync, S: Source, K: Sink>(
    rt: &R,
    alloc: Global,
    words: &[Label],
    source: &mut S,
    sink: &mut K,
) -> Result<u8, NoMemory> {
    let replayer = Box::new(alloc, Replayer)?;
    let equivocator = Box::new(alloc, Equivocator::make(alloc)?)?;
    let vanisher = Box::new(alloc, Vanisher::make(victim(alloc)?, message(alloc)?))?;
    let flood = Box::new(alloc, Flood::make(alloc))?;
    let mut cast = Vec::new(alloc);
    cast.push(unseeing(alloc, 101, replayer))?;
    cast.push(unseeing(alloc, 102, equivocator))?;
    cast.push(unseeing(alloc, 103, vanisher))?;
    cast.push(unseeing(alloc, 104, flood))?;
    let ended = run_words(rt, alloc, words, source, sink, cast);
    told(alloc, &ended, sink)
}

/// The argument that asks for a race.
fn race(alloc: Global) -> Result<Vec<Label>, NoMemory> {
    let word = String::from_str(alloc, "race")?;
    Ok(vec![in alloc; Label::make(word)]?)
}

fn main(rt: HostRuntime) -> ExitCode {
    let mut source = StdSource {
        reader: rt.stdin(),
        faults: 0,
    };
    let mut sink = StdSink {
        writer: rt.stdout(),
        faults: 0,
    };
    let alloc = rt.alloc();
    let Ok(words) = race(alloc) else {
        return ExitCode::from(1);
    };
    let code = if has_word(&rt) {
        beside_floods(&rt, alloc, &words, &mut source, &mut sink)
    } else {
        beside_four(&rt, alloc, &words, &mut source, &mut sink)
    };
    match code {
        Ok(code) => ExitCode::from(code),
        Err(NoMemory) => ExitCode::from(1),
    }
}
