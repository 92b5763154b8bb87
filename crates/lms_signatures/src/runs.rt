//! The chains of a one-time key (RFC 8554, section 4) beside each other, four at a time.

ghost use Rattle.std.specs.Prelude.{List, ℕ, ◌≡◌, ◌<◌, ◌≤◌, ◌⊎◌, ◌^◌, ◌++◌, [], length, slice_index};
ghost use Rattle.std.specs.List.{slice_index_or};
ghost use Rattle.lms_signatures.specs.Types.{u8str, u16str, u32str};
ghost use Rattle.sha2.specs.Sha256.{sha256};
ghost use Rattle.lms_signatures.specs.Ots.{D_PBLC, chain_step, opening, joined};
ghost use Rattle.lms_signatures.specs.Runs.{run_at, end_of, EndsAlike};

use crate::four::four_digests;
use crate::ots::{D_PBLC, chain, opening};
use sha2::Digest;

/// A chain on its way: the string that stands at a step, and the step where the chain ends.
#[derive(Clone, Copy, Debug)]
pub struct Run {
    pub string: [u8; 32],
    pub at: u8,
    pub to: u8,
}

/// Room for the chains of any key: at most 265.
pub fn empty_runs() -> [Run; 265] {
    [Run {
        string: [0; 32],
        at: 0,
        to: 0,
    }; 265]
}

// The numbers in what a step of a chain hashes.
#[tactic(auto, unfolding(crate::specs::Types::u32str, crate::specs::Types::u16str))]
fn step_numbers(index: u32, i: u16, j: u8) -> [u8; 7]
    ensures { result ≡ u32str index ++ u16str i ++ u8str j }
{
    let [a, b, c, d] = index.to_be_bytes();
    let [e, f] = i.to_be_bytes();
    [a, b, c, d, e, f, j]
}

// The same, after the identifier.
fn step_head(id: &[u8; 16], numbers: &[u8; 7]) -> [u8; 23]
    ensures { result ≡ id.now ++ numbers.now }
{
    let mut head = [0; 23];
    head[0..16].copy_from_slice(id);
    head[16..23].copy_from_slice(numbers);
    head
}

// What a step of a chain hashes.
fn step_message(id: &[u8; 16], index: u32, i: u16, j: u8, tmp: &[u8; 32]) -> [u8; 55]
    ensures { result ≡ id.now ++ u32str index ++ u16str i ++ u8str j ++ tmp.now }
{
    let head = step_head(id, &step_numbers(index, i, j));
    let mut message = [0; 55];
    message[0..23].copy_from_slice(&head);
    message[23..55].copy_from_slice(tmp);
    message
}

/// One step of each of four chains, from where the runs stand.
pub fn four_steps(id: &[u8; 16], index: u32, places: [u16; 4], runs: [Run; 4]) -> [[u8; 32]; 4]
    ensures { (l : ℕ) → l < 4
        → slice_index_or result l [] ≡ chain_step id.now index (slice_index places l) (run_at runs l).at (run_at runs l).string }
{
    let messages = [
        step_message(id, index, places[0], runs[0].at, &runs[0].string),
        step_message(id, index, places[1], runs[1].at, &runs[1].string),
        step_message(id, index, places[2], runs[2].at, &runs[2].string),
        step_message(id, index, places[3], runs[3].at, &runs[3].string),
    ];
    four_digests(&messages)
}

// A run with the string that its next step gives; one that is at its end stays.
fn moved(run: Run, string: [u8; 32]) -> Run
    ensures { (id : List ℕ) (q i : ℕ) → string ≡ chain_step id q i run.at run.string
        → end_of id q i result ≡ end_of id q i run }
{
    if run.at < run.to {
        Run {
            string,
            at: run.at + 1,
            to: run.to,
        }
    } else {
        run
    }
}

// One step more in four of the chains.
fn advance(id: &[u8; 16], index: u32, runs: &mut [Run], lanes: [u16; 4])
    requires { (l : ℕ) → l < 4 → slice_index lanes l < length runs.old }
    ensures long { length runs.new ≡ length runs.old }
    ensures alike { EndsAlike id.now index runs.old runs.new }
{
    let a = usize::from(lanes[0]);
    let b = usize::from(lanes[1]);
    let c = usize::from(lanes[2]);
    let d = usize::from(lanes[3]);
    let [p, q, r, s] = [runs[a], runs[b], runs[c], runs[d]];
    let strings = four_steps(id, index, lanes, [p, q, r, s]);
    runs[a] = moved(p, strings[0]);
    runs[b] = moved(q, strings[1]);
    runs[c] = moved(r, strings[2]);
    runs[d] = moved(s, strings[3]);
}

// One step more in the lanes' chains where so many are chosen: how many are chosen then.
fn flush(
    id: &[u8; 16],
    index: u32,
    runs: &mut [Run],
    lanes: [u16; 4],
    chosen: usize,
    least: usize,
) -> usize
    requires { (l : ℕ) → l < 4 → slice_index lanes l < length runs.old }
    ensures long { length runs.new ≡ length runs.old }
    ensures alike { EndsAlike id.now index runs.old runs.new }
    ensures chosen { (result ≡ 0) ⊎ (result < least) }
{
    if chosen < least {
        return chosen;
    }
    advance(id, index, runs, lanes);
    0
}

// 1 for a chain that isn't at its end, else 0.
fn steps_on(run: &Run) -> usize
    ensures { result ≤ 1 }
{
    if run.at < run.to { 1 } else { 0 }
}

// A step more in each chain that isn't at its end.
fn sweep(id: &[u8; 16], index: u32, runs: &mut [Run])
    requires some { 0 < length runs.old }
    requires few { length runs.old < 2 ^ 16 }
    ensures long { length runs.new ≡ length runs.old }
    ensures alike { EndsAlike id.now index runs.old runs.new }
{
    let count = runs.len() as u16;
    let mut lanes = [0; 4];
    let mut n = 0;
    for i in 0..count {
        lanes[n] = i;
        n += steps_on(&runs[usize::from(i)]);
        n = flush(id, index, runs, lanes, n, 4);
    }
    flush(id, index, runs, lanes, n, 1);
}

/// Takes the chains so many steps further, or to their ends, four at a time.
pub fn run_chains(id: &[u8; 16], index: u32, steps: u8, runs: &mut [Run])
    requires some { 0 < length runs.old }
    requires few { length runs.old < 2 ^ 16 }
    ensures long { length runs.new ≡ length runs.old }
    ensures alike { EndsAlike id.now index runs.old runs.new }
{
    for _i in 0..steps {
        sweep(id, index, runs);
    }
}

/// The string at the end of chain i.
pub fn end_of(id: &[u8; 16], index: u32, i: u16, run: &Run) -> [u8; 32]
    ensures { result ≡ end_of id.now index i run.now }
{
    if run.at < run.to {
        chain(id, index, i, run.at, run.to, run.string)
    } else {
        run.string
    }
}

/// K of the chains.
pub fn hash_of_ends(id: &[u8; 16], index: u32, runs: &[Run]) -> [u8; 32]
    requires { length runs.now < 2 ^ 16 }
    ensures { result ≡ sha256 (opening id.now index D_PBLC ++ joined (λ i. end_of id.now index i (run_at runs.now i)) (length runs.now)) }
{
    let count = runs.len() as u16;
    let mut hasher = opening(id, index, D_PBLC);
    for i in 0..count {
        hasher.update(end_of(id, index, i, &runs[usize::from(i)]));
    }
    hasher.finalize()
}
