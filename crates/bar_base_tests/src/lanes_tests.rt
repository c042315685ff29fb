//! Tests of hashes against another program, and of kernels against plain loops, for lengths around the numbers of lanes.

use bar_lanes::{Digests, Heads, Tails, and_not, count, sha_eight, xor_into};
use std::process::Abort;
use std::simd::u32x8;

// From Python's hashlib, of the messages below.
const DIGESTS: [[u8; 32]; 8] = [
    [
        0x46, 0x3e, 0xb2, 0x8e, 0x72, 0xf8, 0x2e, 0x0a, 0x96, 0xc0, 0xa4, 0xcc, 0x53, 0x69, 0x0c,
        0x57, 0x12, 0x81, 0x13, 0x1f, 0x67, 0x2a, 0xa2, 0x29, 0xe0, 0xd4, 0x5a, 0xe5, 0x9b, 0x59,
        0x8b, 0x59,
    ],
    [
        0x0f, 0xac, 0x31, 0xa6, 0xec, 0x4e, 0x36, 0xdb, 0x1b, 0xb8, 0x3a, 0x3b, 0x9b, 0x0a, 0xd3,
        0x46, 0x49, 0x56, 0x65, 0xe0, 0x16, 0xf8, 0x06, 0x7e, 0x2f, 0x42, 0x8e, 0xf4, 0x5a, 0x37,
        0x17, 0x32,
    ],
    [
        0x8d, 0xb8, 0xb4, 0xb0, 0xba, 0xfc, 0x01, 0x10, 0x35, 0x2e, 0xc0, 0x1b, 0x43, 0x8d, 0x2c,
        0xbb, 0xa5, 0xbf, 0x55, 0x26, 0xa0, 0x9c, 0xb9, 0x26, 0x68, 0x0e, 0xc1, 0xf3, 0x84, 0x26,
        0x0a, 0x72,
    ],
    [
        0x48, 0xa3, 0x18, 0xa0, 0x72, 0xf3, 0xc7, 0x78, 0xf9, 0x93, 0x50, 0x30, 0xa9, 0xcf, 0xbc,
        0xde, 0xa7, 0x58, 0x95, 0x4b, 0x0d, 0xf8, 0xad, 0x51, 0x2c, 0x45, 0x93, 0xe5, 0xb0, 0x31,
        0xbd, 0xf8,
    ],
    [
        0x04, 0xb2, 0x2f, 0x22, 0x5d, 0xf7, 0xf7, 0x30, 0x8a, 0x7a, 0x68, 0x74, 0x2d, 0x7f, 0xcd,
        0xa0, 0xed, 0x7b, 0xc3, 0x03, 0x3d, 0xe3, 0x6b, 0xd0, 0x8b, 0x73, 0x7d, 0x71, 0x8e, 0x3f,
        0x2f, 0xd8,
    ],
    [
        0x06, 0xe4, 0xb3, 0x9e, 0xf1, 0xfb, 0x6c, 0xcf, 0xd7, 0x3f, 0x50, 0x9e, 0xf4, 0x16, 0x17,
        0xd4, 0x63, 0x7c, 0x39, 0x1e, 0xa8, 0x0f, 0xa9, 0x88, 0x03, 0x44, 0x98, 0x0e, 0x95, 0x81,
        0xf0, 0x2a,
    ],
    [
        0x16, 0x9c, 0x48, 0xa9, 0xf0, 0xda, 0x15, 0xe5, 0xe5, 0x75, 0xff, 0x6c, 0xb5, 0x36, 0x83,
        0xe4, 0x6d, 0x01, 0x0a, 0x4d, 0x98, 0xe1, 0x12, 0x6a, 0x80, 0x3b, 0x69, 0xbf, 0x82, 0xe9,
        0x3b, 0x71,
    ],
    [
        0x09, 0x8c, 0x65, 0x3c, 0xd6, 0xd5, 0xe7, 0xf5, 0x89, 0x02, 0x58, 0xc8, 0xcc, 0xbb, 0x7d,
        0x88, 0xc7, 0xac, 0x5a, 0xd3, 0x71, 0xa7, 0xac, 0x38, 0xbc, 0x85, 0xa7, 0x43, 0xdf, 0xbf,
        0xc3, 0x7b,
    ],
];

// Byte k of message j is 55 * j + k, modulo 256.
fn messages() -> [[u8; 55]; 8] {
    let mut messages = [[0u8; 55]; 8];
    let mut next = 0u8;
    for j in 0..8 {
        for k in 0..55 {
            messages[j][k] = next;
            next = next.wrapping_add(1);
        }
    }
    messages
}

#[test]
fn eight_hashes_are_those_of_others(rt: HostRuntime) {
    let mut digests = [[0u8; 32]; 8];
    sha_eight(&messages(), &mut digests);
    for j in 0..8 {
        assert_eq!(rt; digests[j], DIGESTS[j]);
    }
}

#[test]
fn messages_in_parts_have_the_hashes_of_others(rt: HostRuntime) {
    let messages = messages();
    let (mut heads, mut places, mut values) = ([[0u8; 20]; 8], [[0u8; 3]; 8], [[0u8; 32]; 8]);
    for j in 0..8 {
        heads[j].copy_from_slice(&messages[j][..20]);
        places[j].copy_from_slice(&messages[j][20..23]);
        values[j].copy_from_slice(&messages[j][23..]);
    }
    let tails = Tails::new(&places, &Digests::new(&values));
    let mut words = [u32x8::splat(0); 64];
    let digests = Heads::new(&heads).hash(&tails, &mut words).to_bytes();
    for j in 0..8 {
        assert_eq!(rt; digests[j], DIGESTS[j]);
    }
}

#[test]
fn lanes_go_on_by_their_counts(rt: HostRuntime) {
    let counts = u32x8::from_array([0, 1, 2, 3, 4, 5, 6, 7]);
    let mut tails = Tails::new(&[[0; 3]; 8], &Digests::new(&[[0; 32]; 8]));
    tails.go_on(&Digests::new(&[[1; 32]; 8]), counts, 3);
    let others = Tails::new(&[[0; 3]; 8], &Digests::new(&[[2; 32]; 8]));
    tails.take(&others, counts, 5);
    let mut digests = tails.values();
    digests.take(&Digests::new(&[[3; 32]; 8]), counts, 0);
    let values = digests.to_bytes();
    let wanted = [3, 0, 0, 0, 1, 2, 1, 1];
    for j in 0..8 {
        assert_eq!(rt; values[j], [wanted[j]; 32]);
    }
}

/// The most bytes of an item of a briefcase.
const MOST: usize = 1_280;

/// Bytes that differ from place to place.
fn bytes_by(step: u8) -> [u8; MOST] {
    let mut bytes = [0; MOST];
    let mut next = step;
    for k in 0..MOST {
        bytes[k] = next;
        next = next.wrapping_mul(5).wrapping_add(step);
    }
    bytes
}

/// Checks that the second bytes are joined to the first in each place below a length. The others are as they were.
fn check_joined(rt: &impl Abort, first: &[u8; MOST], second: &[u8; MOST], len: usize) {
    assert!(rt; len <= MOST);
    let mut found = *first;
    xor_into(&mut found[..len], &second[..len]);
    for k in 0..MOST {
        let other = if k < len { second[k] } else { 0 };
        assert!(rt; found[k] == first[k] ^ other, "byte {k} of {len}");
    }
}

#[test]
fn bytes_are_joined_as_by_a_loop(rt: HostRuntime) {
    let (first, second) = (bytes_by(3), bytes_by(7));
    for len in [0, 1, 7, 8, 9, 32, 63, 64, 65, MOST] {
        check_joined(&rt, &first, &second, len);
    }
}

/// Words whose bits differ from place to place.
fn words_by(step: u64) -> [u64; 32] {
    let mut words = [0; 32];
    let mut next = step;
    for k in 0..32 {
        words[k] = next;
        next = next.wrapping_mul(0x9e37_79b9_7f4a_7c15).wrapping_add(step);
    }
    words
}

/// Checks the words that the first has and the second doesn't, in each place below a length. The others are as they were.
fn check_parted(rt: &impl Abort, first: &[u64; 32], second: &[u64; 32], len: usize) {
    assert!(rt; len <= 32);
    let mut found = [9; 32];
    and_not(&first[..len], &second[..len], &mut found[..len]);
    for k in 0..32 {
        let wanted = if k < len { first[k] & !second[k] } else { 9 };
        assert!(rt; found[k] == wanted, "word {k} of {len}");
    }
}

/// How many bits the first words have.
fn bits_of(words: &[u64; 32], len: usize) -> u64 {
    let mut bits = 0u64;
    for word in words.iter().take(len) {
        bits = bits.saturating_add(u64::from(word.count_ones()));
    }
    bits
}

/// Checks how many bits the first words have.
fn check_count(rt: &impl Abort, words: &[u64; 32], len: usize) {
    assert!(rt; len <= 32);
    assert!(rt;
        u64::from(count(&words[..len])) == bits_of(words, len),
        "of {len}"
    );
}

#[test]
fn words_are_parted_and_counted_as_by_a_loop(rt: HostRuntime) {
    let (first, second) = (words_by(3), words_by(7));
    for len in [0, 1, 3, 4, 5, 7, 8, 9, 32] {
        check_parted(&rt, &first, &second, len);
        check_count(&rt, &first, len);
    }
}
