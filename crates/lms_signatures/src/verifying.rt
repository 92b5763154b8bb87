//! Verification of LMS signatures (RFC 8554, sections 4 and 5) with SHA-256.

ghost use Rattle.std.specs.Prelude.{◌≡◌, ◌↔◌, IsTrue};
ghost use Rattle.lms_signatures.specs.Verifies.{Verifies};
ghost use Rattle.lms_signatures.specs.IsSigned.{is_signed};

/// Whether the signature is one of the message under the key. No memory is taken.
use crate::parts::{read_key, read_signature};

#[tactic(auto, unfolding(crate::specs::IsSigned::is_signed))]
pub fn verifies(key: &[u8], message: &[u8], signature: &[u8]) -> bool
    ensures equations { IsTrue result ↔ Verifies key.now message.now signature.now }
    ensures value { result ≡ is_signed key.now message.now signature.now }
{
    let Ok(key) = read_key(key) else {
        return false;
    };
    let Ok(signature) = read_signature(&key, signature) else {
        return false;
    };
    let root = crate::tree::root_candidate(&key, &signature, message);
    root.as_slice() == key.root().as_slice()
}
