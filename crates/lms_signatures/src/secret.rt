//! What a seed makes.

ghost use Rattle.std.specs.Prelude.{ℕ, ◌≡◌, ◌≤◌, ◌<◌, ◌^◌, ◌-◌, ◌++◌, length, IfOk};
ghost use Rattle.lms_signatures.specs.declared.types.OtsType.TheVariants.{W4};
ghost use Rattle.lms_signatures.specs.Types.{chain_count, width};
ghost use Rattle.lms_signatures.specs.Ots.{digit};
ghost use Rattle.lms_signatures.specs.Runs.{run_at};
ghost use Rattle.lms_signatures.specs.Secret.{Secret, randomizer, ots_public, leaf_count};
ghost use Rattle.lms_signatures.specs.Starts.{private_run};
ghost use Rattle.lms_signatures.specs.Made.{signed_chains};

use crate::ots::{coef, with_checksum};
use crate::runs::{Run, empty_runs, end_of, four_steps, hash_of_ends, run_chains};
use crate::types::{LmsType, OtsType};
use sha2::{Digest, Sha256};
use std::alloc::{AllocError, Global};
use std::marker::Model;

/// What the keys of a tree are made of, for LM-OTS type 3.
#[derive(Drop)]
pub(crate) struct Seed {
    pub(crate) seed: [u8; 32],
    pub(crate) id: [u8; 16],
    pub(crate) lms: LmsType,
}

impl Model for Seed {
    ghost Value = { Secret };

    ghost view = { λ s. record { ots = W4; lms = s.lms; seed = s.seed; id = s.id } };
}

impl Seed {
    // The type of the one-time keys.
    pub(crate) fn ots(&self) -> OtsType
        ensures { result ≡ self.now.ots }
    {
        let _lms = self.lms;
        OtsType::W4
    }

    /// The identifier I.
    pub(crate) fn id(&self) -> &[u8; 16]
        ensures { result.now ≡ self.now.id }
    {
        &self.id
    }

    // The secret string.
    fn seed(&self) -> &[u8; 32]
        ensures { result.now ≡ self.now.seed }
    {
        &self.seed
    }

    /// The type of the tree.
    pub(crate) fn lms(&self) -> LmsType
        ensures { result ≡ self.now.lms }
    {
        self.lms
    }

    /// The number of leaves.
    pub(crate) fn leaf_count(&self) -> u32
        ensures value { result ≡ leaf_count self.now }
        ensures small { result ≤ 2 ^ 15 }
    {
        match self.lms() {
            LmsType::H5 => 32,
            LmsType::H10 => 1024,
            LmsType::H15 => 32768,
        }
    }

    // C
    #[tactic(auto, unfolding(crate::specs::Secret::randomizer, crate::specs::Types::u32str))]
    pub(crate) fn randomizer(&self, q: u32) -> [u8; 32]
        ensures { result ≡ randomizer self.now q }
    {
        let mut hasher = Sha256::new();
        hasher.update(self.seed);
        hasher.update([0x43]);
        hasher.update(q.to_be_bytes());
        hasher.finalize()
    }

    // Places the private elements at the start of the chains.
    fn start_runs(&self, q: u32, runs: &mut [Run])
        requires { length runs.old ≡ chain_count self.now.ots }
        ensures long { length runs.new ≡ chain_count self.now.ots }
        ensures runs { (i : ℕ) → i < chain_count self.now.ots → run_at runs.new i ≡ private_run self.now q (2 ^ width self.now.ots - 1) i }
    {
        let ots = self.ots();
        let to = ots.max_digit();
        let last = ots.chain_count() - 1;
        let start = Run {
            string: *self.seed(),
            at: 0xff,
            to,
        };
        for g in 0..last / 4 + 1 {
            let a = 4 * g;
            let b = at_most(a + 1, last);
            let c = at_most(a + 2, last);
            let d = at_most(a + 3, last);
            let strings = four_steps(self.id(), q, [a, b, c, d], [start; 4]);
            runs[usize::from(a)] = first_run(strings[0], to);
            runs[usize::from(b)] = first_run(strings[1], to);
            runs[usize::from(c)] = first_run(strings[2], to);
            runs[usize::from(d)] = first_run(strings[3], to);
        }
    }

    // The same, where each chain ends at its digit of a message's hash.
    fn start_signing(&self, q: u32, hash: &[u8; 32], runs: &mut [Run])
        requires { length runs.old ≡ chain_count self.now.ots }
        ensures long { length runs.new ≡ chain_count self.now.ots }
        ensures runs { (i : ℕ) → i < chain_count self.now.ots → run_at runs.new i ≡ private_run self.now q (digit self.now.ots hash.now i) i }
    {
        let ots = self.ots();
        self.start_runs(q, runs);
        let signed = with_checksum(ots, hash);
        for i in 0..ots.chain_count() {
            runs[usize::from(i)].to = coef(&signed, i, ots);
        }
    }

    // K of an index.
    #[tactic(auto, unfolding(crate::specs::Secret::ots_public, crate::specs::Ots::ends_hash))]
    pub(crate) fn ots_public(&self, q: u32) -> [u8; 32]
        ensures { result ≡ ots_public self.now q }
    {
        let ots = self.ots();
        let mut room = empty_runs();
        let runs = &mut room[..usize::from(ots.chain_count())];
        self.start_runs(q, runs);
        run_chains(self.id(), q, ots.max_digit(), runs);
        hash_of_ends(self.id(), q, runs)
    }

    // Appends the strings y of a message's hash.
    #[tactic(auto, unfolding(crate::specs::Made::signed_chains))]
    pub(crate) fn push_chains(
        &self,
        out: &mut Vec<u8>,
        q: u32,
        hash: &[u8; 32],
    ) -> Result<(), AllocError>
        ensures { IfOk result (λ _. out.new.items ≡ out.old.items ++ signed_chains self.now q hash.now) }
    {
        let ots = self.ots();
        let mut room = empty_runs();
        let runs = &mut room[..usize::from(ots.chain_count())];
        self.start_signing(q, hash, runs);
        run_chains(self.id(), q, ots.max_digit(), runs);
        for i in 0..ots.chain_count() {
            let y = end_of(self.id(), q, i, &runs[usize::from(i)]);
            out.extend_from_slice(&y)?;
        }
        Ok(())
    }
}

// The lower of two numbers of chains.
fn at_most(i: u16, last: u16) -> u16
    ensures low { result ≤ last }
    ensures same { i ≤ last → result ≡ i }
{
    if i < last { i } else { last }
}

// A chain at its private element.
fn first_run(string: [u8; 32], to: u8) -> Run
    ensures { result ≡ record { string = string; at = 0; to = to } }
{
    Run { string, at: 0, to }
}
