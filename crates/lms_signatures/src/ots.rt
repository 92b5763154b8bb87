//! LM-OTS (RFC 8554, section 4): the hash of a message, the digits that are signed, and the chains.

ghost use Rattle.std.specs.Prelude.{◌≡◌, ◌≤◌, ◌<◌, ℕ, ◌+◌, ◌-◌, ◌*◌, ◌/◌, length};
ghost use Rattle.sha2.specs.Hashers.{Holds256};
ghost use Rattle.lms_signatures.specs.Types.{width, chain_count};
ghost use Rattle.lms_signatures.specs.Ots.{opening, coef, coef_gap, checksum, message_hash, with_checksum, chain_step, chain, string_at, ends_hash, chain_end};
ghost use Rattle.lms_signatures.specs.Runs.{run_at, signed_run};

use crate::runs::{Run, empty_runs, hash_of_ends, run_chains};
use crate::types::OtsType;
use sha2::{Digest, Sha256};

/// The tag of the hash that ends in a one-time public key.
pub const D_PBLC: u16 = 0x8080;

const D_MESG: u16 = 0x8181;

/// A hasher that holds what each hash but those of the chains begins with.
#[tactic(auto, unfolding(crate::specs::Ots::opening, crate::specs::Types::u32str, crate::specs::Types::u16str))]
pub fn opening(id: &[u8; 16], r: u32, tag: u16) -> Sha256
    ensures { Holds256 result (opening id.now r tag) }
{
    let mut hasher = Sha256::new();
    hasher.update(id);
    hasher.update(r.to_be_bytes());
    hasher.update(tag.to_be_bytes());
    hasher
}

/// The i-th of the strings of 32 bytes that stand one after the other.
pub fn string_at(strings: &[u8], i: u16) -> [u8; 32]
    requires { 32 * i + 32 ≤ length strings.now }
    ensures { result ≡ string_at strings.now i }
{
    let place = 32 * usize::from(i);
    let mut string = [0; 32];
    string.copy_from_slice(&strings[place..place + 32]);
    string
}

/// The i-th coefficient of w bits.
pub fn coef(s: &[u8], i: u16, ots: OtsType) -> u8
    requires { i * width ots / 8 < length s.now }
    ensures { result ≡ coef s.now i (width ots) }
{
    let w = ots.width();
    let i = usize::from(i);
    let shift = 8 - (w * (i % (8 / w)) + w);
    (s[i * w / 8] >> shift) & ots.max_digit()
}

/// The checksum of a hash.
#[tactic(auto, unfolding(crate::specs::Ots::checksum, crate::specs::Ots::coef_gap))]
pub fn checksum(ots: OtsType, s: &[u8; 32]) -> u16
    ensures { result ≡ checksum ots s.now }
{
    let max_digit = u16::from(ots.max_digit());
    let mut sum = 0;
    for i in 0..ots.hash_digits() {
        sum += max_digit - u16::from(coef(s, i, ots));
    }
    sum << ots.checksum_shift()
}

/// Q with its checksum after it.
#[tactic(auto, unfolding(crate::specs::Ots::with_checksum, crate::specs::Types::u16str))]
pub fn with_checksum(ots: OtsType, hash: &[u8; 32]) -> [u8; 34]
    ensures { result ≡ with_checksum ots hash.now }
{
    let mut signed = [0; 34];
    signed[..32].copy_from_slice(hash);
    signed[32..].copy_from_slice(&checksum(ots, hash).to_be_bytes());
    signed
}

/// One step of chain i.
#[tactic(auto, unfolding(crate::specs::Ots::chain_step, crate::specs::Types::u32str, crate::specs::Types::u16str))]
pub fn chain_step(id: &[u8; 16], index: u32, i: u16, j: u8, tmp: &[u8; 32]) -> [u8; 32]
    ensures { result ≡ chain_step id.now index i j tmp.now }
{
    let mut hasher = Sha256::new();
    hasher.update(id);
    hasher.update(index.to_be_bytes());
    hasher.update(i.to_be_bytes());
    hasher.update([j]);
    hasher.update(tmp);
    hasher.finalize()
}

/// The steps of chain i from one step up to another.
#[tactic(auto, unfolding(crate::specs::Ots::chain))]
pub fn chain(id: &[u8; 16], index: u32, i: u16, from: u8, to: u8, start: [u8; 32]) -> [u8; 32]
    requires { from ≤ to }
    ensures { result ≡ chain id.now index i from (to - from) start }
{
    let mut tmp = start;
    for j in from..to {
        tmp = chain_step(id, index, i, j, &tmp);
    }
    tmp
}

// The chains of a signature, which go on from the digits of the hash.
fn start_runs(ots: OtsType, hash: &[u8; 32], chains: &[u8], runs: &mut [Run])
    requires long { length chains.now ≡ 32 * chain_count ots }
    requires count { length runs.old ≡ chain_count ots }
    ensures count { length runs.new ≡ chain_count ots }
    ensures runs { (i : ℕ) → i < chain_count ots → run_at runs.new i ≡ signed_run ots hash.now chains.now i }
{
    let signed = with_checksum(ots, hash);
    for i in 0..ots.chain_count() {
        let string = string_at(chains, i);
        let at = coef(&signed, i, ots);
        let to = ots.max_digit();
        runs[usize::from(i)] = Run { string, at, to };
    }
}

/// Kc, the public key that a signature gives for the hash of a message.
#[tactic(auto, unfolding(crate::specs::Ots::ends_hash))]
pub fn ends_hash(
    ots: OtsType,
    id: &[u8; 16],
    index: u32,
    hash: &[u8; 32],
    chains: &[u8],
) -> [u8; 32]
    requires { length chains.now ≡ 32 * chain_count ots }
    ensures { result ≡ ends_hash ots id.now index (chain_end ots id.now index hash.now chains.now) }
{
    let mut room = empty_runs();
    let runs = &mut room[..usize::from(ots.chain_count())];
    start_runs(ots, hash, chains, runs);
    run_chains(id, index, ots.max_digit(), runs);
    hash_of_ends(id, index, runs)
}

/// Q, the hash of a message.
#[tactic(auto, unfolding(crate::specs::Ots::message_hash))]
pub fn message_hash(id: &[u8; 16], index: u32, c: &[u8], message: &[u8]) -> [u8; 32]
    ensures { result ≡ message_hash id.now index c.now message.now }
{
    let mut hasher = opening(id, index, D_MESG);
    hasher.update(c);
    hasher.update(message);
    hasher.finalize()
}
