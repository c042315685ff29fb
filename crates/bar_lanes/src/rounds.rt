//! The rounds of SHA-256 on eight blocks side by side (FIPS 180-4, 6.2.2).

ghost use Rattle.std.specs.Prelude.{◌≡◌, ℕ, ◌+◌, ◌*◌, ◌<◌, ◌≤◌, slice_index, List};
ghost use Rattle.sha2.specs.Sha256.{big_sigma0, big_sigma1, small_sigma0, small_sigma1, ch, maj, round};
ghost use Rattle.sha2.specs.Sha256.{rounds, schedule, compress, word_at, next_word, add32, add_state};
ghost use Rattle.bar_lanes.specs.Code.Lane.{lane, lane_at, hash_lane, IsScheduled};

use crate::vectors::{add, and, not, rotate_right, shift_right, xor};
use std::simd::u32x8;

/// The words of eight schedules (FIPS 180-4, 6.2.2), a vector for each.
pub type Words = [u32x8; 64];

// The round constants (FIPS 180-4, 4.2.2).
const ROUND_CONSTANTS: [u32; 64] = [
    0x428a2f98, 0x71374491, 0xb5c0fbcf, 0xe9b5dba5, 0x3956c25b, 0x59f111f1, 0x923f82a4, 0xab1c5ed5,
    0xd807aa98, 0x12835b01, 0x243185be, 0x550c7dc3, 0x72be5d74, 0x80deb1fe, 0x9bdc06a7, 0xc19bf174,
    0xe49b69c1, 0xefbe4786, 0x0fc19dc6, 0x240ca1cc, 0x2de92c6f, 0x4a7484aa, 0x5cb0a9dc, 0x76f988da,
    0x983e5152, 0xa831c66d, 0xb00327c8, 0xbf597fc7, 0xc6e00bf3, 0xd5a79147, 0x06ca6351, 0x14292967,
    0x27b70a85, 0x2e1b2138, 0x4d2c6dfc, 0x53380d13, 0x650a7354, 0x766a0abb, 0x81c2c92e, 0x92722c85,
    0xa2bfe8a1, 0xa81a664b, 0xc24b8b70, 0xc76c51a3, 0xd192e819, 0xd6990624, 0xf40e3585, 0x106aa070,
    0x19a4c116, 0x1e376c08, 0x2748774c, 0x34b0bcb5, 0x391c0cb3, 0x4ed8aa4a, 0x5b9cca4f, 0x682e6ff3,
    0x748f82ee, 0x78a5636f, 0x84c87814, 0x8cc70208, 0x90befffa, 0xa4506ceb, 0xbef9a3f7, 0xc67178f2,
];

// The bits of b where a has a 1, and those of c elsewhere (FIPS 180-4, 4.1.2).
#[inline(always)]
fn ch(a: u32x8, b: u32x8, c: u32x8) -> u32x8
    ensures { (j : ℕ) → j < 8 → slice_index result j ≡ ch (slice_index a j) (slice_index b j) (slice_index c j) }
{
    xor(and(a, b), and(not(a), c))
}

// The majority of three bits (FIPS 180-4, 4.1.2). If a and c both differ from b, it is theirs; otherwise it is that of b. The next round
// compares a and b again, as its b and c.
#[inline(always)]
fn maj(a: u32x8, b: u32x8, c: u32x8) -> u32x8
    ensures { (j : ℕ) → j < 8 → slice_index result j ≡ maj (slice_index a j) (slice_index b j) (slice_index c j) }
{
    let near = xor(a, b);
    let far = xor(b, c);
    xor(and(near, far), b)
}

// The function Σ0 (FIPS 180-4, 4.1.2). Here and below, each rotation is nested in the next, which takes fewer copies.
#[inline(always)]
fn big_sigma0(x: u32x8) -> u32x8
    ensures { (j : ℕ) → j < 8 → slice_index result j ≡ big_sigma0 (slice_index x j) }
{
    let near = xor(x, rotate_right(x, 9));
    rotate_right(xor(x, rotate_right(near, 11)), 2)
}

// The function Σ1 (FIPS 180-4, 4.1.2).
#[inline(always)]
fn big_sigma1(x: u32x8) -> u32x8
    ensures { (j : ℕ) → j < 8 → slice_index result j ≡ big_sigma1 (slice_index x j) }
{
    let near = xor(x, rotate_right(x, 14));
    rotate_right(xor(x, rotate_right(near, 5)), 6)
}

// The function σ0 (FIPS 180-4, 4.1.2).
#[inline(always)]
pub(crate) fn small_sigma0(x: u32x8) -> u32x8
    ensures { (j : ℕ) → j < 8 → slice_index result j ≡ small_sigma0 (slice_index x j) }
{
    let both = xor(x, rotate_right(x, 11));
    xor(rotate_right(both, 7), shift_right(x, 3))
}

// The function σ1 (FIPS 180-4, 4.1.2).
#[inline(always)]
pub(crate) fn small_sigma1(x: u32x8) -> u32x8
    ensures { (j : ℕ) → j < 8 → slice_index result j ≡ small_sigma1 (slice_index x j) }
{
    let both = xor(x, rotate_right(x, 2));
    xor(rotate_right(both, 17), shift_right(x, 10))
}

// The first sum of a round (FIPS 180-4, 6.2.2). It begins with the summands that need no copies.
#[inline(always)]
fn first_sum(e: u32x8, f: u32x8, g: u32x8, h: u32x8, constant: u32, word: u32x8) -> u32x8
    ensures { (j : ℕ) → j < 8 → slice_index result j ≡ add32 (add32 (add32 (add32 (slice_index h j) (big_sigma1 (slice_index e j)))
        (ch (slice_index e j) (slice_index f j) (slice_index g j))) constant) (slice_index word j) }
{
    let start = add(h, add(word, u32x8::splat(constant)));
    let more = add(start, big_sigma1(e));
    add(more, ch(e, f, g))
}

// One round on the eight working variables, with its constant and its schedule word.
#[inline(always)]
fn round(working: [u32x8; 8], constant: u32, word: u32x8) -> [u32x8; 8]
    ensures { (j : ℕ) → j < 8 → hash_lane j result ≡ round (hash_lane j working) constant (slice_index word j) }
{
    let [a, b, c, d, e, f, g, h] = working;
    let first = first_sum(e, f, g, h, constant, word);
    let second = add(big_sigma0(a), maj(a, b, c));
    [add(first, second), a, b, c, add(d, first), e, f, g]
}

// Word t of the schedule, from the words before it (FIPS 180-4, 6.2.2).
#[inline(always)]
fn next_word(words: &Words, t: usize) -> u32x8
    requires low { 16 ≤ t }
    requires high { t < 64 }
    ensures { (j : ℕ) → j < 8 → slice_index result j ≡ next_word (lane j words.now) t }
{
    let near = add(small_sigma1(words[t - 2]), words[t - 7]);
    let far = add(near, small_sigma0(words[t - 15]));
    add(far, words[t - 16])
}

// Writes words t to t + 3 of the schedule, after those that are already there.
#[inline(always)]
pub(crate) fn four_words(words: &mut Words, t: usize)
    requires low { 16 ≤ t }
    requires high { t + 4 ≤ 64 }
    ensures { (j : ℕ) (block : List ℕ) → j < 8 → IsScheduled block j words.old t → IsScheduled block j words.new (t + 4) }
{
    words[t] = next_word(words, t);
    words[t + 1] = next_word(words, t + 1);
    words[t + 2] = next_word(words, t + 2);
    words[t + 3] = next_word(words, t + 3);
}

// Writes the schedule's words from word `4 * first` on, after those that are already there.
pub(crate) fn fill_words(words: &mut Words, first: usize)
    requires low { 4 ≤ first }
    requires high { first ≤ 16 }
    ensures { (j : ℕ) (block : List ℕ) → j < 8 → IsScheduled block j words.old (4 * first) → IsScheduled block j words.new 64 }
{
    'fours: for four in first..16 {
        four_words(words, 4 * four);
    }
}

// Round t, with the schedule's word t.
#[inline(always)]
pub(crate) fn step(words: &Words, working: [u32x8; 8], t: usize) -> [u32x8; 8]
    requires { t < 64 }
    ensures { (j n : ℕ) (block start : List ℕ) → j < 8 → t < n → IsScheduled block j words.now n
        → hash_lane j working ≡ rounds start (schedule block 48) t
        → hash_lane j result ≡ rounds start (schedule block 48) (t + 1) }
{
    round(working, ROUND_CONSTANTS[t], words[t])
}

// Rounds t to t + 3.
#[inline(always)]
fn four_steps(words: &Words, working: [u32x8; 8], t: usize) -> [u32x8; 8]
    requires { t + 4 ≤ 64 }
    ensures { (j : ℕ) (block start : List ℕ) → j < 8 → IsScheduled block j words.now 64
        → hash_lane j working ≡ rounds start (schedule block 48) t
        → hash_lane j result ≡ rounds start (schedule block 48) (t + 4) }
{
    let working = step(words, working, t);
    let working = step(words, working, t + 1);
    let working = step(words, working, t + 2);
    step(words, working, t + 3)
}

// Adds eight states to eight hash values, word by word.
pub(crate) fn add_states(hash: &[u32x8; 8], working: &[u32x8; 8]) -> [u32x8; 8]
    ensures { (j : ℕ) → j < 8 → hash_lane j result ≡ add_state (hash_lane j hash.now) (hash_lane j working.now) }
{
    [
        add(hash[0], working[0]),
        add(hash[1], working[1]),
        add(hash[2], working[2]),
        add(hash[3], working[3]),
        add(hash[4], working[4]),
        add(hash[5], working[5]),
        add(hash[6], working[6]),
        add(hash[7], working[7]),
    ]
}

// Performs all rounds from round `4 * first` on, and adds the hash values that the first round started from.
pub(crate) fn last_steps(
    words: &Words,
    start: [u32x8; 8],
    first: usize,
    hash: &[u32x8; 8],
) -> [u32x8; 8]
    requires { first ≤ 16 }
    ensures { (j : ℕ) (block : List ℕ) → j < 8 → IsScheduled block j words.now 64
        → hash_lane j start ≡ rounds (hash_lane j hash.now) (schedule block 48) (4 * first)
        → hash_lane j result ≡ compress (hash_lane j hash.now) block }
{
    let mut working = start;
    'fours: for four in first..16 {
        working = four_steps(words, working, 4 * four);
    }
    add_states(hash, &working)
}

// The eight hash values after one more block each. The blocks' sixteen words are the first of `words`.
pub(crate) fn compress(hash: &[u32x8; 8], words: &mut Words) -> [u32x8; 8]
    ensures { (j : ℕ) (block : List ℕ) → j < 8 → ((k : ℕ) → k < 16 → lane_at words.old k j ≡ word_at block (4 * k))
        → hash_lane j result ≡ compress (hash_lane j hash.now) block }
{
    fill_words(words, 4);
    last_steps(words, *hash, 0, hash)
}
