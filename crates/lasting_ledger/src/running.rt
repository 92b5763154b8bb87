//! The whole service: a state file of the system, a reader and a writer.

ghost use Rattle.std.specs.Prelude.{◌≡◌, ◌≢◌, ◌≤◌, ℕ, true, is_ok, unwrap_or, None, IfOk, IfErr, IfSome, IsSomeAnd};
ghost use Rattle.call_history.specs.History.{Legal, IsConserved};
ghost use Rattle.support_rules.specs.Real.{real};
ghost use Rattle.lasting_lines.specs.Opening.{IsPlayed};
ghost use Rattle.lasting_ledger.specs.Ledgers.{ledger_ways, unplayed};
ghost use Rattle.lasting_ledger.specs.Runs.{last_left_out, count_in, IsExplained, IsAnswered};

use crate::machine::LedgerMachine;
use crate::recovery::{Begun, Stop, begin};
use crate::serving::serve_ledger;
use crate::status::Status;
use lasting_file::{OpenError, ReaderLines, Standing, StateFile};
use lasting_lines::{Fault, Played};
use std::alloc::Global;
use std::io::{Read, Write};

/// The first words of a state file: the program, and the version of its rules.
const TITLE: &str = "nitro-ledger 1";

/// The file that a service runs over, and how it begins.
#[derive(Clone, Copy, Debug)]
pub struct Start<'a> {
    /// The state file, which is made if it is missing.
    pub path: &'a str,
    /// The responses to records with higher numbers are written again; with `None`, none are.
    pub after: Option<u64>,
    /// Whether the file may have another inode. Anyone who permits it has to know that no other copy of the file is in
    /// use.
    pub moved: bool,
}

/// What a service did once its file was recovered. Clauses see the calls that it made.
#[derive(Drop)]
pub struct LedgerRun<W: Write + Drop> {
    /// The records that the file held when the service began.
    pub file: Vec<u8>,
    pub played: Played<LedgerMachine>,
    pub outside: Standing<W>,
}

/// How a service ended. The run is there if the file was recovered.
#[derive(Drop)]
pub struct Ended<W: Write + Drop> {
    pub status: Status,
    pub run: Option<LedgerRun<W>>,
}

fn open_status(error: OpenError) -> Status
    ensures { result ≢ Status.InputEnded }
{
    match error {
        OpenError::OutOfMemory => Status::OutOfMemory,
        OpenError::Io(_) => Status::OutputFailed,
        OpenError::InUse => Status::InUse,
        OpenError::Foreign | OpenError::Moved => Status::Foreign,
    }
}

fn stop_status(stop: Stop) -> Status
    ensures { result ≢ Status.InputEnded }
{
    match stop {
        Stop::NoMemory => Status::OutOfMemory,
        Stop::Full => Status::OutputFailed,
        Stop::Torn(_) | Stop::Damaged => Status::Damaged,
        Stop::Behind => Status::Behind,
    }
}

// The ledger of a state file. A torn record is cut off first.
fn recovered(alloc: Global, state: &mut StateFile, after: Option<u64>) -> Result<Begun, Status>
    ensures played { IfOk result (λ begun.
        IsPlayed ledger_ways unplayed state.new.bytes.items (last_left_out after) begun.played begun.again.items) }
    ensures enough { IfOk result (λ _. unwrap_or after 0 ≤ count_in state.new.bytes.items) }
    ensures unserved { IfErr result (λ status. status ≢ Status.InputEnded) }
{
    let stop = match begin(alloc, &state.bytes, after) {
        Ok(begun) => return Ok(begun),
        Err(stop) => stop,
    };
    let Stop::Torn(kept) = stop else {
        return Err(stop_status(stop));
    };
    let Ok(()) = state.cut(kept) else {
        return Err(Status::OutputFailed);
    };
    match begin(alloc, &state.bytes, after) {
        Ok(begun) => Ok(begun),
        Err(stop) => Err(stop_status(stop)),
    }
}

fn serving_status(served: Result<(), Fault>) -> Status
    ensures { result ≡ Status.InputEnded → is_ok served ≡ true }
{
    match served {
        Ok(()) => Status::InputEnded,
        Err(Fault::NoMemory) => Status::OutOfMemory,
        Err(Fault::Input) => Status::InputFailed,
        Err(Fault::Failed | Fault::Full) => Status::OutputFailed,
        Err(Fault::Foreign) => Status::Foreign,
    }
}

// Serves the lines of the input over a file that was recovered.
fn run_over<R: Read + Drop, W: Write + Drop>(
    alloc: Global,
    state: StateFile,
    begun: Begun,
    input: R,
    output: W,
) -> Ended<W>
    ensures file { IfSome result.run (λ run. run.file.items ≡ state.bytes.items) }
    ensures moments { (n : ℕ) → IsPlayed ledger_ways unplayed state.bytes.items n begun.played begun.again.items
        → IfSome result.run (λ run. IsExplained n run.file.items run.outside.calls.events) }
    ensures ready { (n : ℕ) → IsPlayed ledger_ways unplayed state.bytes.items n begun.played begun.again.items
        → result.status ≡ Status.InputEnded
        → IsSomeAnd result.run (λ run. IsAnswered n run.file.items run.outside.calls.events run.played) }
    ensures legal { IfSome result.run (λ run. Legal real run.played.machine.ledger) }
    ensures conserved { IfSome result.run (λ run. IsConserved run.played.machine.ledger) }
{
    let StateFile { file, bytes, .. } = state;
    let Begun { mut played, again } = begun;
    let mut outside = Standing::new(file, output);
    let mut source = ReaderLines::new(alloc, input);
    let served = serve_ledger(alloc, &mut outside, &mut played, &again, &mut source);
    let status = serving_status(served);
    let _entries = played.machine.entries();
    let run = LedgerRun {
        file: bytes,
        played,
        outside,
    };
    Ended {
        status,
        run: Some(run),
    }
}

fn without_run<W: Write + Drop>(status: Status) -> Ended<W>
    ensures { result ≡ record { status = status; run = None } }
{
    Ended { status, run: None }
}

/// Does all that a program does with its arguments. Opens the state file, recovers it, and writes the responses again
/// that were asked for. Then writes the line `ready`, and serves the lines of the input to its end.
pub fn run_ledger<R: Read + Drop, W: Write + Drop>(
    rt: &HostRuntime,
    start: &Start<'_>,
    input: R,
    output: W,
) -> Ended<W>
    // At each moment, in the middle of a call too, whatever a crash leaves of the file explains all that was written.
    // With the responses that were left out, it is a prefix of those that a ledger without crashes owes for the lines
    // in the file.
    ensures moments { IfSome result.run (λ run.
        IsExplained (last_left_out start.now.after) run.file.items run.outside.calls.events) }

    // Once the input ended, all lines that were taken are on the disk, all responses are written, and the ledger is
    // the one that the file stands for.
    ensures ready { result.status ≡ Status.InputEnded → IsSomeAnd result.run (λ run.
        IsAnswered (last_left_out start.now.after) run.file.items run.outside.calls.events run.played) }

    // A file with fewer records than `after` says isn't served.
    ensures enough { IfSome result.run (λ run. unwrap_or start.now.after 0 ≤ count_in run.file.items) }

    // The history is legal.
    ensures legal { IfSome result.run (λ run. Legal real run.played.machine.ledger) }

    // Of each asset, what was deposited is what the channels hold and the persons were paid.
    ensures conserved { IfSome result.run (λ run. IsConserved run.played.machine.ledger) }
{
    let mut state = match StateFile::open(rt, start.path, TITLE, start.moved) {
        Ok(state) => state,
        Err(error) => return without_run(open_status(error)),
    };
    match recovered(rt.alloc(), &mut state, start.after) {
        Ok(begun) => run_over(rt.alloc(), state, begun, input, output),
        Err(status) => without_run(status),
    }
}
