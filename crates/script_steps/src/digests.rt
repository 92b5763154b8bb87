//! The signers that seeds give, and the fixed parts of channels.

ghost use Rattle.std.specs.Prelude.{◌≡◌, ◌==◌, ◌||◌, IsTrue, IfOk, Ok, is_ok};
ghost use Rattle.channel_values.specs.Parts.{fixed_with};
ghost use Rattle.channel_values.specs.Reading.{fixed_of};
ghost use Rattle.script_steps.specs.Digests.{id_of, fresh, spelled};
ghost use Rattle.script_steps.specs.Rules.{Gives, holds};
ghost use Rattle.script_steps.specs.declared.step.Rule.TheVariants as rules;

use crate::step::{Rule, StepFault};
use channel_values::{ByteFault, Fixed, Key};
use lms_signatures::Signer;
use sha2::{Digest, Sha256};
use std::alloc::Global;

/// The 16 bytes that tell the key of a seed from others.
#[tactic(auto, unfolding(crate::specs::Digests::id_of))]
pub fn id_of(seed: &[u8; 32]) -> [u8; 16]
    ensures { result ≡ id_of seed.now }
{
    let mut hasher = Sha256::new();
    hasher.update(seed);
    hasher.update([0x49]);
    let digest = hasher.finalize();
    let mut id = [0; 16];
    id.copy_from_slice(&digest[..16]);
    id
}

/// The signer of a seed, of which no index is used, for a tree of height `h`. It takes 2^h one-time
/// keys.
pub(crate) fn signer_of(alloc: Global, seed: &[u8; 32], h: u64) -> Result<Signer, StepFault>
    requires { IsTrue (h == 5 || h == 10) }
    ensures { Gives (λ s. s) result (Ok (fresh seed.now h)) }
{
    let height = if h == 5 { 5 } else { 10 };
    let signer = Signer::make(alloc, *seed, id_of(seed), height)?;
    Ok(signer)
}

/// The fixed part of a channel.
pub(crate) fn fixed_of(
    alloc: Global,
    keys: Vec<Key>,
    nonce: u64,
    app: u8,
    duration: u32,
) -> Result<Fixed, StepFault>
    ensures made { IfOk result (λ f. f ≡ fixed_with keys.items nonce app duration) }
    ensures fault { Gives (λ _. 0) result
        (holds rules.Limit (is_ok (fixed_of (spelled keys.items nonce app duration)))) }
{
    match Fixed::make(alloc, keys, nonce, app, duration) {
        Ok(fixed) => Ok(fixed),
        Err(ByteFault::NoMemory) => Err(StepFault::NoMemory),
        Err(_) => Err(StepFault::Broken(Rule::Limit)),
    }
}
