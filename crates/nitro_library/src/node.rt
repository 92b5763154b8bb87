//! The node.

ghost use Rattle.std.specs.Prelude.{◌≡◌, ◌≢◌, ◌≤◌, ◌==◌, ◌||◌, ◌++◌, ℕ, Bool, List, true, false, [], None, is_some, take, length, unwrap_or, IfOk, IfErr, OnOk, OnErr, IfSome, IsTrue};
ghost use Rattle.lms_signatures.specs.Signing.{IsHeight};
ghost use Rattle.network.specs.Histories.{IsFresh};
ghost use Rattle.lasting_lines.specs.Endings.{IsForeignLine, HasNoNumber};
ghost use Rattle.lasting_lines.specs.Opening.{IsPlayed};
ghost use Rattle.lasting_node.specs.Laws.{Lasts};
ghost use Rattle.lasting_node.specs.Machines.{line_ways, node_ways, unplayed, Foreign};
ghost use Rattle.lasting_node.specs.Queries.{Says};
ghost use Rattle.lasting_node.specs.Runs.{count_in, signer_of};
ghost use Rattle.lms_signatures.specs.Signing.{Signing};
ghost use Rattle.nitro_library.specs.Asked.{after_of, left_out};
ghost use Rattle.nitro_library.specs.Beginnings.{IsForeign};
ghost use Rattle.nitro_library.specs.Heads.{is_ours, head_in};
ghost use Rattle.nitro_library.specs.Files.{records_in};
ghost use Rattle.nitro_library.specs.Nodes.{start_of, node_title, is_key, ready_line, node_begins, IsWhyNone};
ghost use Rattle.nitro_library.specs.Statuses.{room_fault, line_fault, HasStatus, IsStopped, status_by};
ghost use Rattle.nitro_library.specs.declared.status.Failure.TheVariants.{OutOfMemory, Key};
ghost use Rattle.nitro_library.specs.Steps.{Between, IsAnswer};

use crate::cores::{Core, put};
use crate::heads::{Head, cut_after, head_of};
use crate::opened::OpenedFile;
use crate::slots::NodeSlot;
use crate::status::{Failure, status_of};
use lasting_lines::Played;
use lasting_node::{Begun, NodeMachine, Stop, begin, nodes_last, ready_of, signer_of};
use lms_signatures::Signer;
use node_lines::{Start, ready_text};
use std::alloc::Global;
use std::mem;

/// The first words of a state file: the program, and the version of its rules. The public key follows.
const TITLE: &str = "nitro-node 1";

/// A node.
#[derive(Drop)]
pub struct NodeCore {
    pub core: Core<NodeMachine>,
}

// Whether a tree may have this height.
fn is_height(h: u8) -> bool
    ensures value { result ≡ (h == 5 || h == 10 || h == 15) }
    ensures height { IsTrue result → IsHeight h }
{
    h == 5 || h == 10 || h == 15
}

// The key that the caller gives.
fn start_of(seed: &[u8], h: u8) -> Result<Start, Failure>
    ensures key { OnOk result (is_key seed.now h ≡ true) }
    ensures none { IfErr result (λ failure. (failure ≡ Key) × (is_key seed.now h ≡ false)) }
    ensures start { IfOk result (λ start. start ≡ start_of seed.now h) }
    ensures height { IfOk result (λ start. IsHeight start.h) }
{
    if seed.len() != 32 || !is_height(h) {
        return Err(Failure::Key);
    }
    let mut bytes = [0; 32];
    bytes.copy_from_slice(seed);
    Ok(Start { seed: bytes, h })
}

// A signer that has signed nothing.
fn signer(alloc: Global, key: &Start) -> Result<Signer, Failure>
    requires { IsHeight key.now.h }
    ensures signer { IfOk result (λ signer. signer ≡ signer_of key.now) }
    ensures fresh { IfOk result IsFresh }
    ensures memory { IfErr result (λ failure. failure ≡ OutOfMemory) }
{
    match signer_of(alloc, key) {
        Ok(signer) => Ok(signer),
        Err(_) => Err(Failure::OutOfMemory),
    }
}

// The head of a key's file.
fn head_of_key<'a>(
    alloc: Global,
    file: &OpenedFile,
    signer: &Signer,
    bytes: &'a [u8],
) -> Result<Head<'a>, Failure>
    ensures records { IfOk result (λ head. head.records.now ≡ records_in bytes.now) }
    ensures line { IfOk result (λ head. head.line.items ≡ head_in (node_title signer.now) file.now bytes.now) }
    ensures ours { OnOk result (is_ours (node_title signer.now) file.now bytes.now ≡ true) }
    ensures foreign { IfErr result (IsForeign (node_title signer.now) file.now bytes.now) }
{
    let digits = hex::encode(alloc, &signer.public())?;
    let title = format!(in alloc; "{TITLE} {}", digits.as_str())?;
    head_of(alloc, file, title.as_str(), bytes)
}

// Responses, and the line `ready` after them.
fn with_ready(
    alloc: Global,
    played: &Played<NodeMachine>,
    again: Vec<u8>,
) -> Result<Vec<u8>, Failure>
    ensures memory { IfErr result (λ failure. failure ≡ OutOfMemory) }
    ensures kept { IfOk result (λ kept. kept.items ≡ again.items ++ ready_line played.now) }
{
    let Ok(ready) = ready_of(played) else {
        return Err(Failure::OutOfMemory);
    };
    let mut kept = again;
    kept.extend_from_slice(&ready_text(alloc, &ready)?)?;
    Ok(kept)
}

// A node that has taken the records of its file.
fn core_of(alloc: Global, begun: Begun) -> Result<NodeCore, Failure>
    ensures memory { IfErr result (λ failure. failure ≡ OutOfMemory) }
    ensures begins { (signer : Signing) (n : ℕ) (file : List ℕ)
        → IsPlayed node_ways (unplayed signer) file n begun.played begun.again.items
        → IfOk result (λ node. node_begins signer n file node.core) }
{
    let Begun { played, again } = begun;
    match with_ready(alloc, &played, again) {
        Ok(kept) => Ok(NodeCore {
            core: Core {
                played,
                kept,
                is_over: false,
            },
        }),
        Err(failure) => {
            drop(played);
            Err(failure)
        }
    }
}

// A node of a signer over the bytes of its file.
#[tactic(auto, using(crate::proofs::Stopping::memory_why, crate::proofs::Stopping::foreign_why, crate::proofs::Stopping::room_why, crate::proofs::Stopping::torn_why, crate::proofs::Stopping::damaged_why, crate::proofs::Stopping::behind_why, crate::proofs::Stopping::full_why, crate::proofs::Stopping::entries_why))]
fn begun(
    alloc: Global,
    signer: Signer,
    file: &OpenedFile,
    bytes: &[u8],
    head: &mut [u8],
    count: &mut usize,
) -> Result<NodeCore, Failure>
    requires { IsFresh signer }
    ensures begins { IfOk result (λ node.
        node_begins signer (left_out file.now) (records_in bytes.now) node.core) }
    ensures ours { OnOk result (is_ours (node_title signer) file.now bytes.now ≡ true) }
    ensures head { OnOk result (take count.new head.new ≡ head_in (node_title signer) file.now bytes.now) }
    ensures enough { OnOk result (unwrap_or (after_of file.now) 0 ≤ count_in signer (records_in bytes.now)) }
    ensures why { (key : Bool) → IfErr result (IsWhyNone signer file.now bytes.now (length head.old) key) }
{
    let found = head_of_key(alloc, file, &signer, bytes)?;
    put(&found.line, head, count)?;
    match begin(alloc, signer, found.records, file.after()) {
        Ok(begun) => core_of(alloc, begun),
        Err(Stop::NoMemory) => Err(Failure::OutOfMemory),
        Err(Stop::Full) => Err(Failure::File),
        Err(Stop::Torn(kept)) => Err(Failure::Torn(cut_after(bytes, found.records, kept))),
        Err(Stop::Damaged) => Err(Failure::Damaged),
        Err(Stop::Behind) => Err(Failure::Behind),
        Err(Stop::Entries) => Err(Failure::Entries),
    }
}

// So with the key that the caller gives.
#[tactic(auto, using(crate::proofs::Stopping::memory_why, crate::proofs::Stopping::key_why))]
fn begun_of(
    alloc: Global,
    file: &OpenedFile,
    bytes: &[u8],
    seed: &[u8],
    h: u8,
    head: &mut [u8],
    count: &mut usize,
) -> Result<NodeCore, Failure>
    ensures begins { IfOk result (λ node. node_begins (signer_of (start_of seed.now h))
        (left_out file.now) (records_in bytes.now) node.core) }
    ensures key { OnOk result (is_key seed.now h ≡ true) }
    ensures ours { OnOk result (is_ours (node_title (signer_of (start_of seed.now h))) file.now bytes.now ≡ true) }
    ensures head { OnOk result (take count.new head.new
        ≡ head_in (node_title (signer_of (start_of seed.now h))) file.now bytes.now) }
    ensures enough { OnOk result (unwrap_or (after_of file.now) 0
        ≤ count_in (signer_of (start_of seed.now h)) (records_in bytes.now)) }
    ensures lasts { OnOk result (Lasts (signer_of (start_of seed.now h))) }
    ensures why { IfErr result (IsWhyNone (signer_of (start_of seed.now h)) file.now bytes.now (length head.old)
        (is_key seed.now h)) }
{
    let key = start_of(seed, h)?;
    started_node_lasts(&key);
    let signer = signer(alloc, &key)?;
    begun(alloc, signer, file, bytes, head, count)
}

// What is promised of a key that has signed nothing.
fn started_node_lasts(key: &Start)
    requires { IsHeight key.now.h }
    ensures { Lasts (signer_of key.now) }
{
    nodes_last();
}

// A node over the bytes of its file, in a slot.
#[tactic(auto, using(crate::proofs::Stopping::memory_why))]
fn begin_in(
    alloc: Global,
    slot: &mut NodeSlot,
    file: &OpenedFile,
    bytes: &[u8],
    seed: &[u8],
    h: u8,
    head: &mut [u8],
    count: &mut usize,
) -> Result<(), Failure>
    requires { slot.old.core ≡ None }
    ensures begun { OnOk result (is_some slot.new.core ≡ true) }
    ensures begins { IfSome slot.new.core (λ node. node_begins (signer_of (start_of seed.now h))
        (left_out file.now) (records_in bytes.now) node.core) }
    ensures key { OnOk result (is_key seed.now h ≡ true) }
    ensures ours { OnOk result (is_ours (node_title (signer_of (start_of seed.now h))) file.now bytes.now ≡ true) }
    ensures head { OnOk result (take count.new head.new
        ≡ head_in (node_title (signer_of (start_of seed.now h))) file.now bytes.now) }
    ensures enough { OnOk result (unwrap_or (after_of file.now) 0
        ≤ count_in (signer_of (start_of seed.now h)) (records_in bytes.now)) }
    ensures lasts { OnOk result (Lasts (signer_of (start_of seed.now h))) }
    ensures none { OnErr result (slot.new.core ≡ None) }
    ensures why { IfErr result (IsWhyNone (signer_of (start_of seed.now h)) file.now bytes.now (length head.old)
        (is_key seed.now h)) }
{
    let node = begun_of(alloc, file, bytes, seed, h, head, count)?;
    match Box::new(alloc, node) {
        Ok(core) => {
            *slot = NodeSlot::of(core);
            Ok(())
        }
        Err(_) => Err(Failure::OutOfMemory),
    }
}

/// Begins a node over a file and its bytes, all of them. It keeps the responses that were asked for and the line `ready`.
/// `head` has room for 256 bytes. With 0, the file has to be emptied, begun with `count` of them and synced, if `count` isn't 0.
/// With 20 it has to be cut after `count` bytes, synced, and begun anew.
#[unsafe(no_mangle)]
#[tactic(auto, using(crate::proofs::Outcomes::stopped))]
pub extern "C" fn nitro_rt_node_begin(
    alloc: Global,
    slot: &mut NodeSlot,
    file: &OpenedFile,
    bytes: &[u8],
    seed: &[u8],
    h: u8,
    head: &mut [u8],
    count: &mut usize,
) -> u8
    requires { slot.old.core ≡ None }

    // The node is the one that the file's records stand for, and what is kept are its responses to them.
    ensures begun { result ≡ 0 → is_some slot.new.core ≡ true }
    ensures begins { IfSome slot.new.core (λ node. node_begins (signer_of (start_of seed.now h))
        (left_out file.now) (records_in bytes.now) node.core) }

    // Over any crashes and restarts of the file the node keeps what it promises, and no index of the key signs two messages.
    ensures lasts { result ≡ 0 → Lasts (signer_of (start_of seed.now h)) }

    // The key is one, and the file is its. It has as many records as were to be left out, and `head` has what it has to begin
    // with.
    ensures key { result ≡ 0 → is_key seed.now h ≡ true }
    ensures ours { result ≡ 0 → is_ours (node_title (signer_of (start_of seed.now h))) file.now bytes.now ≡ true }
    ensures enough { result ≡ 0 → unwrap_or (after_of file.now) 0
        ≤ count_in (signer_of (start_of seed.now h)) (records_in bytes.now) }
    ensures head { result ≡ 0 → take count.new head.new
        ≡ head_in (node_title (signer_of (start_of seed.now h))) file.now bytes.now }

    // Otherwise there is no node, and the status and the count say why.
    ensures none { result ≢ 0 → slot.new.core ≡ None }
    ensures why { result ≢ 0 → IsStopped (IsWhyNone (signer_of (start_of seed.now h)) file.now bytes.now
        (length head.old) (is_key seed.now h)) result count.new }
{
    *count = 0;
    match begin_in(alloc, slot, file, bytes, seed, h, head, count) {
        Ok(()) => 0,
        Err(failure) => {
            *count = failure.cut_after();
            failure.code()
        }
    }
}

/// Takes a line. With 0, `count` bytes of `row` have to be appended to the file and synced before anything is given. `row` has
/// room for the line and 128 bytes more.
#[unsafe(no_mangle)]
#[tactic(auto, using(crate::proofs::Outcomes::has_status))]
pub extern "C" fn nitro_rt_node_take(
    alloc: Global,
    slot: &mut NodeSlot,
    line: &[u8],
    row: &mut [u8],
    count: &mut usize,
) -> u8
    requires { is_some slot.old.core ≡ true }
    ensures open { is_some slot.new.core ≡ true }

    // The row is that of the line, and what is kept is the response to it, or why it isn't taken. Where the row is on the disk
    // before the response is given, at each moment whatever a crash leaves of the file explains all that was given.
    ensures answer { result ≡ 0 → Between (λ old new. IsAnswer line_ways Says old.core.played line.now
        (take count.new row.new) new.core.kept.items new.core.played) slot.old.core slot.new.core }

    // Nothing was kept before.
    ensures empty { result ≡ 0 → IfSome slot.old.core (λ old. old.core.kept.items ≡ []) }

    // A line that isn't looked at has the status of the first test that fails, and changes nothing. One that fails later has 1
    // (out of memory), 5 where no number is left for its record, or 12 where the reply of an entry isn't the adjudicator's.
    ensures status { IfSome slot.old.core (λ old. HasStatus (line_fault old.core line.now (length row.old))
        (IsForeignLine line_ways Foreign old.core.played line.now) (HasNoNumber line_ways old.core.played line.now) result) }
    ensures same { Between (λ old new. IfSome (line_fault old.core line.now (length row.old)) (λ _. new ≡ old))
        slot.old.core slot.new.core }

    // After a call that is done the node goes on. After a line that fails later it is over.
    ensures goes_on { result ≡ 0 → IfSome slot.new.core (λ new. new.core.is_over ≡ false) }
    ensures over { result ≢ 0 → Between (λ old new. line_fault old.core line.now (length row.old) ≡ None
        → new.core.is_over ≡ true) slot.old.core slot.new.core }
{
    let mut node = mem::replace(slot, NodeSlot::empty(alloc)).into_core();
    let outcome = node.core.take(alloc, line, row, count);
    *slot = NodeSlot::of(node);
    status_of(outcome)
}

/// Gives what is kept. `count` is its length. With 13 there is no room for it.
#[unsafe(no_mangle)]
#[tactic(auto, using(crate::proofs::Outcomes::given_status))]
pub extern "C" fn nitro_rt_node_give(
    alloc: Global,
    slot: &mut NodeSlot,
    text: &mut [u8],
    count: &mut usize,
) -> u8
    requires { is_some slot.old.core ≡ true }
    ensures open { is_some slot.new.core ≡ true }

    // All of it is given, and then nothing is kept.
    ensures given { result ≡ 0 → IfSome slot.old.core (λ old. take count.new text.new ≡ old.core.kept.items) }
    ensures empty { result ≡ 0 → IfSome slot.new.core (λ new. new.core.kept.items ≡ []) }

    // Where it doesn't fit it is kept.
    ensures status { IfSome slot.old.core (λ old. result ≡ status_by (room_fault old.core.kept.items (length text.old))) }
    ensures kept { result ≢ 0 → Between (λ old new. new.core.kept.items ≡ old.core.kept.items) slot.old.core slot.new.core }

    // Its length is given in both cases.
    ensures count { IfSome slot.old.core (λ old. count.new ≡ length old.core.kept.items) }
    ensures same { Between (λ old new. new.core.played ≡ old.core.played) slot.old.core slot.new.core }

    // The node goes on after it where it did before.
    ensures over { Between (λ old new. new.core.is_over ≡ old.core.is_over) slot.old.core slot.new.core }
{
    let mut node = mem::replace(slot, NodeSlot::empty(alloc)).into_core();
    let outcome = node.core.give(text, count);
    *slot = NodeSlot::of(node);
    status_of(outcome)
}

/// Lets go of a node.
#[unsafe(no_mangle)]
pub extern "C" fn nitro_rt_node_end(alloc: Global, slot: &mut NodeSlot)
    requires { is_some slot.old.core ≡ true }
    ensures { slot.new.core ≡ None }
{
    drop(mem::replace(slot, NodeSlot::empty(alloc)).into_core());
}
