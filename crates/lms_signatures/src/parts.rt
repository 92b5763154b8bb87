//! The parts of a public key and of a signature, as bytes lay them out (RFC 8554, sections 5.3 and 5.4).

ghost use Rattle.std.specs.Prelude.{◌≡◌, ◌≤◌, ◌<◌, ◌+◌, ◌*◌, length, IfOk};
ghost use Rattle.lms_signatures.specs.Types.{ots_code, lms_code};
ghost use Rattle.lms_signatures.specs.Parts.{KeyParts, SignatureParts, IsUnder, number_at, key_of, signature_of};

use crate::types::{LmsFault, LmsType, OtsType};
use byteorder::{BigEndian, ByteOrder};
use std::marker::Model;

/// A public key, whose types are known ones.
#[derive(Drop)]
pub struct LmsKey {
    lms: LmsType,
    ots: OtsType,
    id: [u8; 16],
    root: [u8; 32],
}

impl Model for LmsKey {
    ghost Value = { KeyParts };

    ghost view = { λ k. record { lms = k.lms; ots = k.ots; id = k.id; root = k.root } };
}

impl LmsKey {
    /// The code of the LMS type: 5, 6 or 7.
    pub fn lms_type(&self) -> u32
        ensures { result ≡ lms_code self.now.lms }
    {
        self.lms.code()
    }

    /// The code of the LM-OTS type: 1 to 4.
    pub fn ots_type(&self) -> u32
        ensures { result ≡ ots_code self.now.ots }
    {
        self.ots.code()
    }

    /// The identifier I.
    pub fn id(&self) -> &[u8; 16]
        ensures { result.now ≡ self.now.id }
    {
        &self.id
    }

    /// The root T[1].
    pub fn root(&self) -> &[u8; 32]
        ensures { result.now ≡ self.now.root }
    {
        &self.root
    }

    // The type of the tree.
    pub(crate) fn lms(&self) -> LmsType
        ensures { result ≡ self.now.lms }
    {
        self.lms
    }

    // The type of the one-time keys.
    pub(crate) fn ots(&self) -> OtsType
        ensures { result ≡ self.now.ots }
    {
        self.ots
    }
}

/// A signature of the length, the types and the indices of a key, by slices of its bytes.
#[derive(Drop)]
pub struct LmsSignature<'a> {
    index: u32,
    c: &'a [u8],
    chains: &'a [u8],
    path: &'a [u8],
}

impl<'a> Model for LmsSignature<'a> {
    ghost Value = { SignatureParts };

    ghost view = { λ s. record { index = s.index; c = s.c.now; chains = s.chains.now; path = s.path.now } };
}

impl<'a> LmsSignature<'a> {
    /// The index of the leaf.
    pub fn index(&self) -> u32
        ensures { result ≡ self.now.index }
    {
        self.index
    }

    /// The random string C, of 32 bytes.
    pub fn c(&self) -> &[u8]
        ensures { result.now ≡ self.now.c }
    {
        self.c
    }

    /// All the strings y in order, of 32 bytes each.
    pub fn chains(&self) -> &[u8]
        ensures { result.now ≡ self.now.chains }
    {
        self.chains
    }

    /// The path from the leaf upwards, of 32 bytes a level.
    pub fn path(&self) -> &[u8]
        ensures { result.now ≡ self.now.path }
    {
        self.path
    }
}

// The number in the four bytes from place i.
#[tactic(auto, unfolding(crate::specs::Parts::number_at))]
fn number_at(bytes: &[u8], i: usize) -> u32
    requires { i + 4 ≤ length bytes.now }
    ensures { result ≡ number_at i bytes.now }
{
    BigEndian::read_u32(&bytes[i..])
}

/// Reads a key of 56 bytes, or says the first thing that is wrong: its length, its LMS type, its
/// LM-OTS type. No memory is taken.
#[tactic(auto, unfolding(crate::specs::Parts::key_of))]
pub fn read_key(bytes: &[u8]) -> Result<LmsKey, LmsFault>
    ensures { result ≡ key_of bytes.now }
{
    if bytes.len() != 56 {
        return Err(LmsFault::Length(bytes.len()));
    }
    let code = number_at(bytes, 0);
    let Some(lms) = LmsType::from_code(code) else {
        return Err(LmsFault::Kind(code));
    };
    let code = number_at(bytes, 4);
    let Some(ots) = OtsType::from_code(code) else {
        return Err(LmsFault::Kind(code));
    };
    let mut id = [0; 16];
    id.copy_from_slice(&bytes[8..24]);
    let mut root = [0; 32];
    root.copy_from_slice(&bytes[24..56]);
    Ok(LmsKey { lms, ots, id, root })
}

/// Reads a signature under the key, or says the first thing that is wrong: its length, its LM-OTS
/// type, its LMS type, its index. No memory is taken.
#[tactic(auto, unfolding(crate::specs::Parts::signature_of))]
pub fn read_signature<'a>(key: &LmsKey, bytes: &'a [u8]) -> Result<LmsSignature<'a>, LmsFault>
    ensures exact { result ≡ signature_of key.now bytes.now }
    ensures whole { IfOk result (IsUnder key.now) }
{
    let chain_bytes = 32 * usize::from(key.ots.chain_count());
    let kind_place = 40 + chain_bytes;
    if bytes.len() != kind_place + 4 + 32 * usize::from(key.lms.height()) {
        return Err(LmsFault::Length(bytes.len()));
    }
    let code = number_at(bytes, 4);
    if code != key.ots.code() {
        return Err(LmsFault::Kind(code));
    }
    let code = number_at(bytes, kind_place);
    if code != key.lms.code() {
        return Err(LmsFault::Kind(code));
    }
    let index = number_at(bytes, 0);
    if index >> key.lms.height() != 0 {
        return Err(LmsFault::Index(index));
    }
    Ok(LmsSignature {
        index,
        c: &bytes[8..40],
        chains: &bytes[40..kind_place],
        path: &bytes[kind_place + 4..],
    })
}
