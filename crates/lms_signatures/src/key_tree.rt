//! The tree over the one-time keys of a seed.

ghost use Rattle.std.specs.Prelude.{ℕ, ◌≡◌, ◌≤◌, ◌<◌, ◌-◌, ◌+◌, ◌*◌, [], length, IfOk};
ghost use Rattle.std.specs.List.{slice_index_or};
ghost use Rattle.lms_signatures.specs.Tree.{leaf, interior};
ghost use Rattle.lms_signatures.specs.Secret.{ots_public, leaf_count};
ghost use Rattle.lms_signatures.specs.IsSigner.{IsTree};

use crate::secret::Seed;
use crate::tree::{interior, leaf};
use std::alloc::{AllocError, Global};

// Writes the leaves.
fn fill_leaves(seed: &Seed, tree: &mut [[u8; 32]])
    requires { length tree.old ≡ 2 * leaf_count seed.now }
    ensures { (r : ℕ) → leaf_count seed.now ≤ r → r < 2 * leaf_count seed.now
        → slice_index_or tree.new r [] ≡ leaf seed.now.id r (ots_public seed.now (r - leaf_count seed.now)) }
{
    let count = seed.leaf_count();
    for q in 0..count {
        let r = count + q;
        tree[r as usize] = leaf(seed.id(), r, &seed.ots_public(q));
    }
}

// Writes the nodes above the leaves, from below.
fn fill_interiors(seed: &Seed, tree: &mut [[u8; 32]])
    requires { length tree.old ≡ 2 * leaf_count seed.now }
    ensures leaves { (r : ℕ) → leaf_count seed.now ≤ r
        → slice_index_or tree.new r [] ≡ slice_index_or tree.old r [] }
    ensures interiors { (r : ℕ) → 1 ≤ r → r < leaf_count seed.now
        → slice_index_or tree.new r [] ≡ interior seed.now.id r (slice_index_or tree.new (2 * r) []) (slice_index_or tree.new (2 * r + 1) []) }
{
    let count = seed.leaf_count();
    for i in 1..count {
        let r = count - i;
        let place = r as usize;
        tree[place] = interior(seed.id(), r, &tree[2 * place], &tree[2 * place + 1]);
    }
}

/// The nodes by their numbers, from 1 on.
pub(crate) fn tree_of(alloc: Global, seed: &Seed) -> Result<Vec<[u8; 32]>, AllocError>
    ensures { IfOk result (λ t. IsTree seed.now t.items) }
{
    let mut tree = vec![in alloc; [0; 32]; 2 * seed.leaf_count() as usize]?;
    fill_leaves(seed, &mut tree);
    fill_interiors(seed, &mut tree);
    Ok(tree)
}
