//! The tree of LMS (RFC 8554, section 5).

ghost use Rattle.std.specs.Prelude.{◌≡◌, ◌≤◌, ◌<◌, ◌+◌, ◌*◌, length};
ghost use Rattle.lms_signatures.specs.Parts.{IsUnder};
ghost use Rattle.lms_signatures.specs.Tree.{leaf, interior, parent, climb};
ghost use Rattle.lms_signatures.specs.Verifies.{root_candidate};

use crate::ots::{ends_hash, message_hash, opening, string_at};
use crate::parts::{LmsKey, LmsSignature};
use sha2::{Digest, Sha256};

const D_LEAF: u16 = 0x8282;

const D_INTR: u16 = 0x8383;

/// T[r] at a leaf, over its LM-OTS public key.
#[tactic(auto, unfolding(crate::specs::Tree::leaf))]
pub fn leaf(id: &[u8; 16], r: u32, k: &[u8; 32]) -> [u8; 32]
    ensures { result ≡ leaf id.now r k.now }
{
    let mut hasher = opening(id, r, D_LEAF);
    hasher.update(k);
    hasher.finalize()
}

/// T[r] above its two children.
#[tactic(auto, unfolding(crate::specs::Tree::interior))]
pub fn interior(id: &[u8; 16], r: u32, left: &[u8; 32], right: &[u8; 32]) -> [u8; 32]
    ensures { result ≡ interior id.now r left.now right.now }
{
    let mut hasher = opening(id, r, D_INTR);
    hasher.update(left);
    hasher.update(right);
    hasher.finalize()
}

/// What stands above node r and its sibling.
pub fn parent(id: &[u8; 16], r: u32, tmp: &[u8; 32], sibling: &[u8; 32]) -> [u8; 32]
    ensures { result ≡ parent id.now r tmp.now sibling.now }
{
    if r % 2 == 1 {
        interior(id, r / 2, sibling, tmp)
    } else {
        interior(id, r / 2, tmp, sibling)
    }
}

/// What stands some levels above node r.
pub fn climb(id: &[u8; 16], r: u32, path: &[u8], start: [u8; 32], levels: u16) -> [u8; 32]
    requires long { 32 * levels ≤ length path.now }
    ensures { result ≡ climb id.now r path.now start levels }
{
    let mut tmp = start;
    let mut node = r;
    for i in 0..levels {
        tmp = parent(id, node, &tmp, &string_at(path, i));
        node /= 2;
    }
    tmp
}

/// Tc, the root that a signature gives.
pub fn root_candidate(key: &LmsKey, signature: &LmsSignature<'_>, message: &[u8]) -> [u8; 32]
    requires { IsUnder key.now signature.now }
    ensures { result ≡ root_candidate key.now signature.now message.now }
{
    let index = signature.index();
    let hash = message_hash(key.id(), index, signature.c(), message);
    let k = ends_hash(key.ots(), key.id(), index, &hash, signature.chains());
    let r = (1 << key.lms().height()) + index;
    climb(
        key.id(),
        r,
        signature.path(),
        leaf(key.id(), r, &k),
        key.lms().height(),
    )
}
