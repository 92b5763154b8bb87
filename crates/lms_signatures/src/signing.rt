//! The signature of a message at an index, from the tree.

ghost use Rattle.std.specs.Prelude.{◌≡◌, ◌<◌, ◌^◌, ◌-◌, ◌+◌, ◌*◌, ◌++◌, IfOk};
ghost use Rattle.lms_signatures.specs.Secret.{leaf_count};
ghost use Rattle.lms_signatures.specs.Made.{sibling, path_of, made, signature_bytes};
ghost use Rattle.lms_signatures.specs.IsSigner.{IsTree};

use crate::ots::message_hash;
use crate::secret::Seed;
use std::alloc::{AllocError, Global};

// The other child of the node above.
fn sibling(r: u32) -> u32
    requires { r + 1 < 2 ^ 32 }
    ensures { result ≡ sibling r }
{
    if r % 2 == 1 { r - 1 } else { r + 1 }
}

// Appends the path of a leaf.
#[tactic(auto, unfolding(crate::specs::Made::path_of))]
fn push_path(seed: &Seed, tree: &[[u8; 32]], q: u32, out: &mut Vec<u8>) -> Result<(), AllocError>
    requires tree { IsTree seed.now tree.now }
    requires index { q < leaf_count seed.now }
    ensures { IfOk result (λ _. out.new.items ≡ out.old.items ++ path_of seed.now q) }
{
    let mut node = seed.leaf_count() + q;
    for i in 0..seed.lms().height() {
        out.extend_from_slice(&tree[sibling(node) as usize])?;
        node /= 2;
    }
    Ok(())
}

/// The signature of a message at an index.
#[tactic(auto, unfolding(crate::specs::Types::u32str))]
pub(crate) fn signature(
    alloc: Global,
    seed: &Seed,
    tree: &[[u8; 32]],
    q: u32,
    message: &[u8],
) -> Result<Vec<u8>, AllocError>
    requires tree { IsTree seed.now tree.now }
    requires index { q < leaf_count seed.now }
    ensures { IfOk result (λ v. v.items ≡ signature_bytes seed.now (made seed.now q message.now)) }
{
    let ots = seed.ots();
    let lms = seed.lms();
    let chain_bytes = 32 * usize::from(ots.chain_count());
    let path_bytes = 32 * usize::from(lms.height());
    let mut out = Vec::with_capacity(alloc, 44 + chain_bytes + path_bytes)?;
    let c = seed.randomizer(q);
    out.extend_from_slice(&q.to_be_bytes())?;
    out.extend_from_slice(&ots.code().to_be_bytes())?;
    out.extend_from_slice(&c)?;
    let hash = message_hash(seed.id(), q, &c, message);
    seed.push_chains(&mut out, q, &hash)?;
    out.extend_from_slice(&lms.code().to_be_bytes())?;
    push_path(seed, tree, q, &mut out)?;
    Ok(out)
}
