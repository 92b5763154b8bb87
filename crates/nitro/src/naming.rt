//! The names that a script declares its people and channels with.

use crate::closed::Closed;
use byte_streams::{CalmSink, Source, StdSource};
use channel_values::{Label, NoMemory};
use script_run::{Ended, run_in_one_thread};
use std::alloc::Global;
use std::fs;
use std::rt::Files;

/// Plays the script that a source has, and prints nothing.
fn play<S: Source>(alloc: Global, source: &mut S) -> Result<Ended, NoMemory> {
    let mut words = Vec::new(alloc);
    words.push(Label::make(String::from_str(alloc, "run")?))?;
    match run_in_one_thread(alloc, &words, source, &mut CalmSink) {
        Some(ended) => Ok(ended),
        None => Err(NoMemory),
    }
}

/// Plays the script of a file: its report has the names.
pub(crate) fn play_names<R: Files + Eprint>(
    rt: &R,
    alloc: Global,
    name: &str,
) -> Result<Ended, NoMemory> {
    match fs::open(rt, name) {
        Ok(reader) => play(alloc, &mut StdSource { reader, faults: 0 }),
        Err(error) => {
            let _ = eprintln!(rt; "nitro: can't open {name}: {error}");
            play(alloc, &mut Closed { faults: 0 })
        }
    }
}
