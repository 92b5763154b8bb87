//! A replay of a record, and the text that was written.

ghost use denote.Param.Send.{IsSync};
ghost use Rattle.std.specs.Prelude.{◌≡◌, fold, OnOk};
ghost use Rattle.support_rules.specs.Real.{real};
ghost use Rattle.record_checker.specs.Answering.{given};
ghost use Rattle.record_checker.specs.Running.{IsRun, sunk};
ghost use Rattle.watchtower.specs.Replay.{enrolling};
ghost use Rattle.tower_replay.specs.Replaying.{tower_asked};

use byte_streams::{Sink, Source};
use channel_values::{Label, NoMemory};
use record_checker::{Answering, Status, run_on_record};
use run_record::{Ending, Record};
use std::alloc::Global;
use std::sync::Wait;
use std::thread::Threads;
use watchtower::{Tower, enroll, replay};

/// Answers a sound record with what a tower of its people answers after each entry.
#[derive(Drop)]
struct Replay<'a, R: Threads + Wait + Sync> {
    rt: &'a R,
}

/// Admits the person of each ending, and hands its chains.
fn enroll_all(tower: &mut Tower, ends: &[Ending]) -> Result<(), NoMemory>
    ensures { OnOk result (tower.new ≡ record tower.old {
      clients = fold (λ clients e. enrolling real clients e.person e.chains) tower.old.clients ends.now;
    }) }
{
    for end in ends {
        enroll(tower, &end.person, end.chains.as_slice())?;
    }
    Ok(())
}

impl<R: Threads + Wait + Sync> Answering for Replay<'_, R> {
    ghost asked = { tower_asked };

    ghost ready = { λ _. IsSync R.row };

    fn word(&self) -> &'static str {
        "tower"
    }

    fn answer(&self, alloc: Global, value: &Record) -> Result<Vec<u8>, NoMemory> {
        let mut tower = Tower::make(alloc);
        enroll_all(&mut tower, value.ends.as_slice())?;
        replay(self.rt, alloc, &mut tower, value.history.as_slice())
    }
}

/// Reads a record, lets a tower of its people look after each entry of its history, and writes what the tower answers.
pub fn run_tower<R: Threads + Wait + Sync, S: Source, K: Sink>(
    rt: &R,
    alloc: Global,
    words: &[Label],
    source: &mut S,
    sink: &mut K,
) -> Status
    ensures { IsRun tower_asked (given S.remaining S.faults words.now source.old source.new)
        (sunk K.held K.faults sink.old sink.new) result }
{
    run_on_record(alloc, &Replay { rt }, words, source, sink)
}
