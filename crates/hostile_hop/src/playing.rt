//! From routes and a source to a status and a text.

ghost use Rattle.std.specs.Prelude.{◌≡◌, ◌≤◌, All, IfOk, length};
ghost use Rattle.call_history.specs.History.{Legal, newest_first};
ghost use Rattle.script_steps.specs.Bounds.{Fits, persons_of, rounds_of, signers_of};
ghost use Rattle.support_rules.specs.Real.{real};

use crate::routes::take_routes;
use byte_streams::{ReadEnd, Source, read_all};
use channel_values::NoMemory;
use lms_signatures::Signer;
use network::Route;
use play_report::report_play;
use report_text::{Report, text_of};
use script_reader::{ScriptFault, read_script_with_signers};
use script_run::{Node, Status, line_of};
use script_steps::{STEP_LIMIT, Step};
use sequential_ledger::Ledger;
use std::alloc::Global;

/// What the program ends with, and what it prints.
#[derive(Drop)]
pub(crate) struct Played {
    pub(crate) status: Status,
    pub(crate) text: Vec<u8>,
}

/// An end without a history.
pub(crate) fn unplayed(alloc: Global, status: Status) -> Result<Played, NoMemory> {
    let line = line_of(alloc, status)?;
    Ok(Played {
        status,
        text: line.into_bytes(),
    })
}

/// Plays the steps by these routes.
fn report_of(
    alloc: Global,
    steps: &mut [Step],
    signers: Vec<Signer>,
    routes: &[Route],
) -> Result<Report, NoMemory>
    requires fit { All Fits steps.old }
    requires few { persons_of steps.old ≤ 16 }
    requires rounds { rounds_of steps.old ≤ 4096 }
    requires short { length steps.old ≤ STEP_LIMIT }
    requires fresh { signers.items ≡ signers_of steps.old }
    ensures { IfOk result (λ report. Legal real (newest_first report.history)) }
{
    take_routes(steps, routes);
    report_play::<Node, Ledger>(alloc, steps, signers, None)
}

fn play_bytes(alloc: Global, bytes: &[u8], routes: &[Route]) -> Result<Played, NoMemory> {
    let (script, signers) = match read_script_with_signers(alloc, bytes, false) {
        Ok(read) => read,
        Err(ScriptFault::NoMemory) => return Err(NoMemory),
        Err(ScriptFault::Broken { step, rule }) => {
            return unplayed(alloc, Status::Script(step, rule));
        }
    };
    let mut steps = script.steps.into_vec();
    let report = report_of(alloc, &mut steps, signers, routes)?;
    let text = text_of(&report)?;
    Ok(Played {
        status: Status::Done,
        text,
    })
}

/// Plays the script that the source has.
pub(crate) fn play_source<S: Source>(
    alloc: Global,
    source: &mut S,
    routes: &[Route],
) -> Result<Played, NoMemory> {
    match read_all(alloc, source) {
        Ok(bytes) => play_bytes(alloc, &bytes, routes),
        Err(ReadEnd::NoMemory) => Err(NoMemory),
        Err(ReadEnd::Failed) => unplayed(alloc, Status::ReadFault),
        Err(ReadEnd::TooLong) => unplayed(alloc, Status::TooLong),
    }
}
