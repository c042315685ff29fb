//! SHA-256 of eight messages of 55 bytes side by side; a message of 55 bytes is one block.

ghost use Rattle.std.specs.Prelude.{◌≡◌, ℕ, ◌*◌, ◌+◌, ◌<◌, ◌≤◌, [], length, slice_index, slice_index_or};
ghost use Rattle.sha2.specs.Sha256.{padded_message, word_at, digest_bytes, compress, initial_hash_256, sha256};
ghost use Rattle.bar_lanes.specs.Code.Lane.{hash_lane};

use crate::rounds::compress;
use std::simd::u32x8;

// The padding of a message of 55 bytes: a bit 1, and its length of 440 bits (FIPS 180-4, 5.1.1).
const PADDING: [u8; 9] = [0x80, 0, 0, 0, 0, 0, 0, 0x01, 0xb8];

// The block of a message (FIPS 180-4, 5.1.1).
pub(crate) fn block(message: &[u8; 55]) -> [u8; 64]
    ensures padded { result ≡ padded_message message.now }
    ensures length { length message.now ≡ 55 }
{
    let mut block = [0u8; 64];
    block[..55].copy_from_slice(message);
    block[55..].copy_from_slice(&PADDING);
    block
}

// The word at byte `at` of bytes (FIPS 180-4, 5.2.1).
fn word_in(bytes: &[u8], at: usize) -> u32
    requires { at + 4 ≤ length bytes.now }
    ensures is { result ≡ word_at bytes.now at }
    ensures bytes { (i : ℕ) → slice_index bytes.now i < 256 }
{
    u32::from_be_bytes([bytes[at], bytes[at + 1], bytes[at + 2], bytes[at + 3]])
}

// The same for an array of N bytes.
fn word<const N: usize>(row: &[u8; N], at: usize) -> u32
    requires { at + 4 ≤ N }
    ensures is { result ≡ word_at row.now at }
    ensures long { length row.now ≡ N }
    ensures bytes { (i : ℕ) → slice_index row.now i < 256 }
{
    word_in(row.as_slice(), at)
}

// Word k of each row of bytes, with a lane for each row.
pub(crate) fn words_at<const N: usize>(rows: &[[u8; N]; 8], k: usize) -> u32x8
    requires { 4 * k + 4 ≤ N }
    ensures is { (j : ℕ) → j < 8 → slice_index result j ≡ word_at (slice_index_or rows.now j []) (4 * k) }
    ensures long { (j : ℕ) → j < 8 → length (slice_index_or rows.now j []) ≡ N }
    ensures bytes { (j i : ℕ) → j < 8 → slice_index (slice_index_or rows.now j []) i < 256 }
{
    u32x8::from_array([
        word(&rows[0], 4 * k),
        word(&rows[1], 4 * k),
        word(&rows[2], 4 * k),
        word(&rows[3], 4 * k),
        word(&rows[4], 4 * k),
        word(&rows[5], 4 * k),
        word(&rows[6], 4 * k),
        word(&rows[7], 4 * k),
    ])
}

// The digest of lane j: its eight words, the highest byte of each first (FIPS 180-4, 6.2.2).
pub(crate) fn digest_at(hash: &[[u32; 8]; 8], j: usize) -> [u8; 32]
    requires { j < 8 }
    ensures { result ≡ digest_bytes (hash_lane j hash.now) 8 }
{
    let mut digest = [0u8; 32];
    'words: for i in 0..8 {
        let lanes = hash[i];
        digest[4 * i..4 * i + 4].copy_from_slice(&lanes[j].to_be_bytes());
    }
    digest
}

// The lanes of each word.
pub(crate) fn lanes_of(hash: [u32x8; 8]) -> [[u32; 8]; 8]
    ensures { result ≡ hash }
{
    let [a, b, c, d, e, f, g, h] = hash;
    [
        a.to_array(),
        b.to_array(),
        c.to_array(),
        d.to_array(),
        e.to_array(),
        f.to_array(),
        g.to_array(),
        h.to_array(),
    ]
}

// The initial hash value in each lane (FIPS 180-4, 5.3.3).
pub(crate) fn initial_hash() -> [u32x8; 8]
    ensures { (j : ℕ) → j < 8 → hash_lane j result ≡ initial_hash_256 }
{
    [
        u32x8::splat(0x6a09_e667),
        u32x8::splat(0xbb67_ae85),
        u32x8::splat(0x3c6e_f372),
        u32x8::splat(0xa54f_f53a),
        u32x8::splat(0x510e_527f),
        u32x8::splat(0x9b05_688c),
        u32x8::splat(0x1f83_d9ab),
        u32x8::splat(0x5be0_cd19),
    ]
}

// The hash values of eight blocks: eight words, with a lane for each block.
fn hashes(blocks: &[[u8; 64]; 8]) -> [[u32; 8]; 8]
    ensures { (j : ℕ) → j < 8 → hash_lane j result ≡ compress initial_hash_256 (slice_index_or blocks.now j []) }
{
    let mut words = [u32x8::splat(0); 64];
    'load: for k in 0..16 {
        words[k] = words_at(blocks, k);
    }
    lanes_of(compress(&initial_hash(), &mut words))
}

/// Writes the SHA-256 of each of eight messages of 55 bytes; digest j is that of message j (FIPS 180-4, 6.2).
pub fn sha_eight(messages: &[[u8; 55]; 8], out: &mut [[u8; 32]; 8])
    ensures { (j : ℕ) → j < 8 → slice_index_or out.new j [] ≡ sha256 (slice_index_or messages.now j []) }
{
    let mut blocks = [[0u8; 64]; 8];
    'fill: for j in 0..8 {
        blocks[j] = block(&messages[j]);
    }
    let lanes = hashes(&blocks);
    'write: for j in 0..8 {
        out[j] = digest_at(&lanes, j);
    }
}
