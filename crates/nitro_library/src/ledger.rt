//! The ledger.

ghost use Rattle.std.specs.Prelude.{◌≡◌, ◌≢◌, ◌≤◌, ℕ, List, true, false, [], None, is_some, take, length, unwrap_or, IfOk, IfErr, OnOk, OnErr, IfSome};
ghost use Rattle.lasting_ledger.specs.Ledgers.{line_ways, ledger_ways, unplayed, Says, Foreign};
ghost use Rattle.lasting_ledger.specs.Runs.{count_in};
ghost use Rattle.lasting_lines.specs.Endings.{IsForeignLine, HasNoNumber};
ghost use Rattle.lasting_lines.specs.Opening.{IsPlayed};
ghost use Rattle.nitro_library.specs.Asked.{after_of, left_out};
ghost use Rattle.nitro_library.specs.Heads.{is_ours, head_in};
ghost use Rattle.nitro_library.specs.Files.{records_in};
ghost use Rattle.nitro_library.specs.Ledgers.{ledger_title, ledger_begins, IsWhyNone};
ghost use Rattle.nitro_library.specs.Statuses.{room_fault, line_fault, HasStatus, IsStopped, status_by};
ghost use Rattle.nitro_library.specs.declared.status.Failure.TheVariants.{OutOfMemory};
ghost use Rattle.nitro_library.specs.Steps.{Between, IsAnswer};

use crate::cores::{Core, put};
use crate::heads::{cut_after, head_of};
use crate::opened::OpenedFile;
use crate::slots::LedgerSlot;
use crate::status::{Failure, status_of};
use lasting_ledger::{Begun, LedgerMachine, Stop, begin, ready_text};
use std::alloc::Global;
use std::mem;

/// The first words of a state file: the program, and the version of its rules.
const TITLE: &str = "nitro-ledger 1";

/// A ledger.
#[derive(Drop)]
pub struct LedgerCore {
    pub core: Core<LedgerMachine>,
}

// A ledger that has taken the records of its file.
fn core_of(alloc: Global, begun: Begun) -> Result<LedgerCore, Failure>
    ensures memory { IfErr result (λ failure. failure ≡ OutOfMemory) }
    ensures begins { (n : ℕ) (file : List ℕ) → IsPlayed ledger_ways unplayed file n begun.played begun.again.items
        → IfOk result (λ ledger. ledger_begins n file ledger.core) }
{
    let Begun { played, again } = begun;
    let ready = ready_text(alloc, played.count, &played.mark)?;
    let mut kept = again;
    kept.extend_from_slice(&ready)?;
    let core = Core {
        played,
        kept,
        is_over: false,
    };
    Ok(LedgerCore { core })
}

// A ledger over the bytes of its file.
#[tactic(auto, using(crate::proofs::Stopping::memory_why, crate::proofs::Stopping::foreign_why, crate::proofs::Stopping::room_why, crate::proofs::Stopping::torn_why, crate::proofs::Stopping::damaged_why, crate::proofs::Stopping::behind_why, crate::proofs::Stopping::full_why))]
fn begun(
    alloc: Global,
    file: &OpenedFile,
    bytes: &[u8],
    head: &mut [u8],
    count: &mut usize,
) -> Result<LedgerCore, Failure>
    ensures begins { IfOk result (λ ledger.
        ledger_begins (left_out file.now) (records_in bytes.now) ledger.core) }
    ensures ours { OnOk result (is_ours ledger_title file.now bytes.now ≡ true) }
    ensures head { OnOk result (take count.new head.new ≡ head_in ledger_title file.now bytes.now) }
    ensures enough { OnOk result (unwrap_or (after_of file.now) 0 ≤ count_in (records_in bytes.now)) }
    ensures why { IfErr result (IsWhyNone file.now bytes.now (length head.old)) }
{
    let found = head_of(alloc, file, TITLE, bytes)?;
    put(&found.line, head, count)?;
    match begin(alloc, found.records, file.after()) {
        Ok(begun) => core_of(alloc, begun),
        Err(Stop::NoMemory) => Err(Failure::OutOfMemory),
        Err(Stop::Full) => Err(Failure::File),
        Err(Stop::Torn(kept)) => Err(Failure::Torn(cut_after(bytes, found.records, kept))),
        Err(Stop::Damaged) => Err(Failure::Damaged),
        Err(Stop::Behind) => Err(Failure::Behind),
    }
}

// A ledger over the bytes of its file, in a slot.
#[tactic(auto, using(crate::proofs::Stopping::memory_why))]
fn begin_in(
    alloc: Global,
    slot: &mut LedgerSlot,
    file: &OpenedFile,
    bytes: &[u8],
    head: &mut [u8],
    count: &mut usize,
) -> Result<(), Failure>
    requires { slot.old.core ≡ None }
    ensures begun { OnOk result (is_some slot.new.core ≡ true) }
    ensures begins { IfSome slot.new.core (λ ledger.
        ledger_begins (left_out file.now) (records_in bytes.now) ledger.core) }
    ensures ours { OnOk result (is_ours ledger_title file.now bytes.now ≡ true) }
    ensures head { OnOk result (take count.new head.new ≡ head_in ledger_title file.now bytes.now) }
    ensures enough { OnOk result (unwrap_or (after_of file.now) 0 ≤ count_in (records_in bytes.now)) }
    ensures none { OnErr result (slot.new.core ≡ None) }
    ensures why { IfErr result (IsWhyNone file.now bytes.now (length head.old)) }
{
    let ledger = begun(alloc, file, bytes, head, count)?;
    match Box::new(alloc, ledger) {
        Ok(core) => {
            *slot = LedgerSlot::of(core);
            Ok(())
        }
        Err(_) => Err(Failure::OutOfMemory),
    }
}

/// Begins a ledger over a file and its bytes, all of them. It keeps the responses that were asked for and the line `ready`.
/// `head` has room for 256 bytes. With 0, the file has to be emptied, begun with `count` of them and synced, if `count` isn't 0.
/// With 20 it has to be cut after `count` bytes, synced, and begun anew.
#[unsafe(no_mangle)]
#[tactic(auto, using(crate::proofs::Outcomes::stopped))]
pub extern "C" fn nitro_rt_ledger_begin(
    alloc: Global,
    slot: &mut LedgerSlot,
    file: &OpenedFile,
    bytes: &[u8],
    head: &mut [u8],
    count: &mut usize,
) -> u8
    requires { slot.old.core ≡ None }

    // The ledger is the one that the file's records stand for, and what is kept are its responses to them.
    ensures begun { result ≡ 0 → is_some slot.new.core ≡ true }
    ensures begins { IfSome slot.new.core (λ ledger.
        ledger_begins (left_out file.now) (records_in bytes.now) ledger.core) }

    // The file is the caller's, and has as many records as were to be left out. `head` has what it has to begin with.
    ensures ours { result ≡ 0 → is_ours ledger_title file.now bytes.now ≡ true }
    ensures enough { result ≡ 0 → unwrap_or (after_of file.now) 0 ≤ count_in (records_in bytes.now) }
    ensures head { result ≡ 0 → take count.new head.new ≡ head_in ledger_title file.now bytes.now }

    // Otherwise there is no ledger, and the status and the count say why.
    ensures none { result ≢ 0 → slot.new.core ≡ None }
    ensures why { result ≢ 0 → IsStopped (IsWhyNone file.now bytes.now (length head.old)) result count.new }
{
    *count = 0;
    match begin_in(alloc, slot, file, bytes, head, count) {
        Ok(()) => 0,
        Err(failure) => {
            *count = failure.cut_after();
            failure.code()
        }
    }
}

/// Takes a line. With 0, `count` bytes of `row` have to be appended to the file and synced before anything is given. `row` has
/// room for the line and 128 bytes more.
#[unsafe(no_mangle)]
#[tactic(auto, using(crate::proofs::Outcomes::has_status))]
pub extern "C" fn nitro_rt_ledger_take(
    alloc: Global,
    slot: &mut LedgerSlot,
    line: &[u8],
    row: &mut [u8],
    count: &mut usize,
) -> u8
    requires { is_some slot.old.core ≡ true }
    ensures open { is_some slot.new.core ≡ true }

    // The row is that of the line, and what is kept is the response to it, or why it isn't taken. Where the row is on the disk
    // before the response is given, at each moment whatever a crash leaves of the file explains all that was given.
    ensures answer { result ≡ 0 → Between (λ old new. IsAnswer line_ways Says old.core.played line.now
        (take count.new row.new) new.core.kept.items new.core.played) slot.old.core slot.new.core }

    // Nothing was kept before.
    ensures empty { result ≡ 0 → IfSome slot.old.core (λ old. old.core.kept.items ≡ []) }

    // A line that isn't looked at has the status of the first test that fails, and changes nothing. One that fails later has 1
    // (out of memory), or 5 where no number is left for its record.
    ensures status { IfSome slot.old.core (λ old. HasStatus (line_fault old.core line.now (length row.old))
        (IsForeignLine line_ways Foreign old.core.played line.now) (HasNoNumber line_ways old.core.played line.now) result) }
    ensures same { Between (λ old new. IfSome (line_fault old.core line.now (length row.old)) (λ _. new ≡ old))
        slot.old.core slot.new.core }

    // After a call that is done the ledger goes on. After a line that fails later it is over.
    ensures goes_on { result ≡ 0 → IfSome slot.new.core (λ new. new.core.is_over ≡ false) }
    ensures over { result ≢ 0 → Between (λ old new. line_fault old.core line.now (length row.old) ≡ None
        → new.core.is_over ≡ true) slot.old.core slot.new.core }
{
    let mut ledger = mem::replace(slot, LedgerSlot::empty(alloc)).into_core();
    let outcome = ledger.core.take(alloc, line, row, count);
    *slot = LedgerSlot::of(ledger);
    status_of(outcome)
}

/// Gives what is kept. `count` is its length. With 13 there is no room for it.
#[unsafe(no_mangle)]
#[tactic(auto, using(crate::proofs::Outcomes::given_status))]
pub extern "C" fn nitro_rt_ledger_give(
    alloc: Global,
    slot: &mut LedgerSlot,
    text: &mut [u8],
    count: &mut usize,
) -> u8
    requires { is_some slot.old.core ≡ true }
    ensures open { is_some slot.new.core ≡ true }

    // All of it is given, and then nothing is kept.
    ensures given { result ≡ 0 → IfSome slot.old.core (λ old. take count.new text.new ≡ old.core.kept.items) }
    ensures empty { result ≡ 0 → IfSome slot.new.core (λ new. new.core.kept.items ≡ []) }

    // Where it doesn't fit it is kept.
    ensures status { IfSome slot.old.core (λ old. result ≡ status_by (room_fault old.core.kept.items (length text.old))) }
    ensures kept { result ≢ 0 → Between (λ old new. new.core.kept.items ≡ old.core.kept.items) slot.old.core slot.new.core }

    // Its length is given in both cases.
    ensures count { IfSome slot.old.core (λ old. count.new ≡ length old.core.kept.items) }
    ensures same { Between (λ old new. new.core.played ≡ old.core.played) slot.old.core slot.new.core }

    // The ledger goes on after it where it did before.
    ensures over { Between (λ old new. new.core.is_over ≡ old.core.is_over) slot.old.core slot.new.core }
{
    let mut ledger = mem::replace(slot, LedgerSlot::empty(alloc)).into_core();
    let outcome = ledger.core.give(text, count);
    *slot = LedgerSlot::of(ledger);
    status_of(outcome)
}

/// Lets go of a ledger.
#[unsafe(no_mangle)]
pub extern "C" fn nitro_rt_ledger_end(alloc: Global, slot: &mut LedgerSlot)
    requires { is_some slot.old.core ≡ true }
    ensures { slot.new.core ≡ None }
{
    drop(mem::replace(slot, LedgerSlot::empty(alloc)).into_core());
}
