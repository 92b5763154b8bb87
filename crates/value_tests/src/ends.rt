//! What the ends of the chains of a signature hash to, for each type of key.

use lms_signatures::ots::{D_PBLC, chain, coef, ends_hash, opening, with_checksum};
use lms_signatures::types::OtsType;
use sha2::Digest;
use std::test::Fail;

const ID: [u8; 16] = [9; 16];

const INDEX: u32 = 77;

/// The string that chain i starts from.
fn start(i: u16) -> [u8; 32] {
    let [high, low] = i.to_be_bytes();
    let mut string = [low; 32];
    string[7] = high;
    string[31] = 5;
    string
}

/// The hash of the ends, where each chain goes by itself.
fn plain_hash(ots: OtsType, hash: &[u8; 32]) -> [u8; 32] {
    let signed = with_checksum(ots, hash);
    let mut hasher = opening(&ID, INDEX, D_PBLC);
    for i in 0..ots.chain_count() {
        let from = coef(&signed, i, ots);
        hasher.update(chain(&ID, INDEX, i, from, ots.max_digit(), start(i)));
    }
    hasher.finalize()
}

/// The starts of as many chains as a key has at most.
fn starts() -> [u8; 8480] {
    let mut chains = [0; 8480];
    for i in 0..265 {
        let place = 32 * i;
        chains[place..place + 32].copy_from_slice(&start(i as u16));
    }
    chains
}

/// A hash from its first byte, where each byte is so much more than the one before.
fn hash_of(first: u8, more: u8) -> [u8; 32] {
    let mut hash = [first; 32];
    for i in 1..32 {
        hash[i] = hash[i - 1].wrapping_add(more);
    }
    hash
}

/// Types of keys, each with a hash: digits that are all lowest or highest, and digits that change.
const ROWS: [(OtsType, u8, u8); 8] = [
    (OtsType::W1, 0x00, 0),
    (OtsType::W1, 0x35, 29),
    (OtsType::W2, 0xff, 0),
    (OtsType::W2, 0x1b, 71),
    (OtsType::W4, 0x00, 0),
    (OtsType::W4, 0x0f, 37),
    (OtsType::W8, 0xff, 0),
    (OtsType::W8, 0x80, 101),
];

#[test]
fn ends_are_those_of_chains_by_themselves(rt: HostRuntime) -> Result<(), Fail> {
    let chains = starts();
    for (ots, first, more) in ROWS {
        let hash = hash_of(first, more);
        let chains = &chains[..32 * usize::from(ots.chain_count())];
        let together = ends_hash(ots, &ID, INDEX, &hash, chains);
        assert_eq!(rt; together, plain_hash(ots, &hash), "{ots:?} {first}");
    }
    Ok(())
}
