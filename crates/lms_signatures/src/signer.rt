//! The signer.

ghost use Rattle.std.specs.Prelude.{◌≡◌, ◌++◌, ◌^◌, Ok, Err, IsTrue, IfOk, IfErr};
ghost use Rattle.lms_signatures.specs.Types.{u32str, height};
ghost use Rattle.lms_signatures.specs.IsSigned.{is_signed};
ghost use Rattle.lms_signatures.specs.Made.{made_key};
ghost use Rattle.lms_signatures.specs.Signing.{Signing, IsHeight, Signs};
ghost use Rattle.lms_signatures.specs.IsSigner.{IsSigner};

use crate::fault::{NoMemory, SignFault};
use crate::secret::Seed;
use crate::types::LmsType;
use crate::{key_tree as tree, signing};
use std::alloc::Global;
use std::marker::Model;

/// A signer, which signs with each index of its seed once.
#[derive(Drop)]
pub struct Signer {
    alloc: Global,
    seed: Seed,
    // The nodes by their numbers, from 1 on.
    tree: Vec<[u8; 32]>,
    used: u32,
}

impl Model for Signer {
    ghost Value = { Signing };

    ghost view = { λ s. record { seed = s.seed.seed; id = s.seed.id; h = height s.seed.lms; used = s.used } };

    ghost invariant = { λ s. IsSigner s.seed s.tree.items s.used };
}

impl Signer {
    /// The signer of a seed and an identifier I, with 2^h indices, where h is 5, 10 or 15 (RFC 8554,
    /// LMS types 5, 6 and 7). It makes the whole tree, which takes 2^(h + 6) bytes.
    pub fn make(alloc: Global, seed: [u8; 32], id: [u8; 16], h: u8) -> Result<Signer, NoMemory>
        requires { IsHeight h }
        ensures { IfOk result (λ s. s ≡ record { seed = seed; id = id; h = h; used = 0 }) }
    {
        let lms = match h {
            5 => LmsType::H5,
            10 => LmsType::H10,
            _ => LmsType::H15,
        };
        let seed = Seed { seed, id, lms };
        let tree = tree::tree_of(alloc, &seed)?;
        Ok(Signer {
            alloc,
            seed,
            tree,
            used: 0,
        })
    }

    /// The signature of a message at the next index, which is then used; after a refusal nothing is
    /// changed. It verifies under the public key.
    pub fn sign(&mut self, message: &[u8]) -> Result<Vec<u8>, SignFault>
        ensures signed { IfOk result (λ bytes. Signs self.old message.now (Ok bytes.items) self.new) }
        ensures refused { IfErr result (λ fault. Signs self.old message.now (Err fault) self.new) }
        ensures verifies { IfOk result (λ bytes. IsTrue (is_signed (made_key self.old.seed self.old.id self.old.h) message.now bytes.items)) }
    {
        if self.used == self.seed.leaf_count() {
            return Err(SignFault::KeySpent(self.used));
        }
        let bytes = signing::signature(self.alloc, &self.seed, &self.tree, self.used, message)?;
        self.used += 1;
        Ok(bytes)
    }

    /// How many indices there are. No memory is taken.
    pub fn limit(&self) -> u32
        ensures { result ≡ 2 ^ self.now.h }
    {
        self.seed.leaf_count()
    }

    /// How many indices have signed. No memory is taken.
    pub fn used(&self) -> u32
        ensures { result ≡ self.now.used }
    {
        self.used
    }

    /// The public key, of 56 bytes. No memory is taken.
    pub fn public(&self) -> [u8; 56]
        ensures { result ≡ made_key self.now.seed self.now.id self.now.h }
    {
        let seed = &self.seed;
        written_key(
            seed.lms().code(),
            seed.ots().code(),
            seed.id(),
            &self.tree[1],
        )
    }
}

// The bytes of a public key.
#[tactic(auto, unfolding(crate::specs::Types::u32str))]
fn written_key(lms: u32, ots: u32, id: &[u8; 16], root: &[u8; 32]) -> [u8; 56]
    ensures { result ≡ u32str lms ++ u32str ots ++ id.now ++ root.now }
{
    let mut key = [0; 56];
    key[0..4].copy_from_slice(&lms.to_be_bytes());
    key[4..8].copy_from_slice(&ots.to_be_bytes());
    key[8..24].copy_from_slice(id);
    key[24..56].copy_from_slice(root);
    key
}
