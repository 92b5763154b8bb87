//! The digests of four messages of 55 bytes, each of which fills a block with its padding.

ghost use Rattle.std.specs.Prelude.{ℕ, ◌≡◌, ◌<◌, ◌≤◌, ◌+◌, ◌*◌, ◌++◌, [], slice_index};
ghost use Rattle.std.specs.List.{slice_index_or};
ghost use Rattle.sha2.specs.Sha256.{digest_bytes, initial_hash_256, padding, sha256, word_at};
ghost use Rattle.lms_signatures.specs.Lanes.{lane, words};

use crate::lanes::compress;
use std::simd::u32x4;

// A block with the padding of 55 bytes at its end.
const PADDED: [u8; 64] = [
    0, 0, 0, 0, 0, 0, 0, 0, 0, 0, 0, 0, 0, 0, 0, 0, 0, 0, 0, 0, 0, 0, 0, 0, 0, 0, 0, 0, 0, 0, 0, 0,
    0, 0, 0, 0, 0, 0, 0, 0, 0, 0, 0, 0, 0, 0, 0, 0, 0, 0, 0, 0, 0, 0, 0, 0x80, 0, 0, 0, 0, 0, 0, 1,
    0xb8,
];

// The block of a message.
fn block_of(message: &[u8; 55]) -> [u8; 64]
    ensures { result ≡ message.now ++ padding 55 }
{
    let mut block = PADDED;
    block[..55].copy_from_slice(message);
    block
}

fn load_be(block: &[u8; 64], i: usize) -> u32
    requires { i + 4 ≤ 64 }
    ensures { result ≡ word_at block.now i }
{
    u32::from_be_bytes([block[i], block[i + 1], block[i + 2], block[i + 3]])
}

// The words of four blocks.
fn words_of(blocks: &[[u8; 64]; 4]) -> [u32x4; 16]
    ensures { (j k : ℕ) → j < 4 → k < 16 → slice_index (words j result) k ≡ word_at (slice_index_or blocks.now j []) (4 * k) }
{
    let mut w = [u32x4::splat(0); 16];
    'load: for k in 0..16 {
        let a = load_be(&blocks[0], 4 * k);
        let b = load_be(&blocks[1], 4 * k);
        let c = load_be(&blocks[2], 4 * k);
        let d = load_be(&blocks[3], 4 * k);
        w[k] = u32x4::from_array([a, b, c, d]);
    }
    w
}

// The digest that stands in a lane.
fn digest_of(state: &[u32x4; 8], j: usize) -> [u8; 32]
    requires { j < 4 }
    ensures { result ≡ digest_bytes (lane j state.now) 8 }
{
    let mut out = [0; 32];
    'words: for k in 0..8 {
        let word = state[k].to_array()[j];
        out[4 * k..4 * k + 4].copy_from_slice(&word.to_be_bytes());
    }
    out
}

// The initial hash value in each lane.
fn initial() -> [u32x4; 8]
    ensures { (j : ℕ) → j < 4 → lane j result ≡ initial_hash_256 }
{
    [
        u32x4::splat(0x6a09_e667),
        u32x4::splat(0xbb67_ae85),
        u32x4::splat(0x3c6e_f372),
        u32x4::splat(0xa54f_f53a),
        u32x4::splat(0x510e_527f),
        u32x4::splat(0x9b05_688c),
        u32x4::splat(0x1f83_d9ab),
        u32x4::splat(0x5be0_cd19),
    ]
}

/// The SHA-256 digests of four messages of 55 bytes.
pub fn four_digests(messages: &[[u8; 55]; 4]) -> [[u8; 32]; 4]
    ensures { (j : ℕ) → j < 4 → slice_index_or result j [] ≡ sha256 (slice_index_or messages.now j []) }
{
    let blocks = [
        block_of(&messages[0]),
        block_of(&messages[1]),
        block_of(&messages[2]),
        block_of(&messages[3]),
    ];
    let block = words_of(&blocks);
    let mut state = initial();
    compress(&mut state, &block);
    [
        digest_of(&state, 0),
        digest_of(&state, 1),
        digest_of(&state, 2),
        digest_of(&state, 3),
    ]
}
