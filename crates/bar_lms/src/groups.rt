//! Chains of LM-OTS side by side, in eight lanes.

ghost use Rattle.std.specs.Prelude.{◌≡◌, ℕ, ◌+◌, ◌*◌, ◌≤◌, ◌<◌, ◌++◌, ◌∷◌, [], List, length, slice_index, slice_index_or};
ghost use Rattle.std.specs.Int.{w16, w32, to_be_bytes};
ghost use Rattle.bar_lms.specs.Chains.{chain, most_of, place};
ghost use Rattle.bar_lms.specs.Code.Lanes.{AreHeadsOf, leg_of, leg_end, lane_steps};

use crate::bytes::put;
use crate::legs::Eight;
use bar_bytes::Steps;
use bar_lanes::{Digests, Heads, Tails, Words};
use std::simd::u32x8;
use std::sync::ledger::Ledger;

// The bytes that each step of leaf q begins with.
fn head_of(ident: &[u8; 16], q: u32) -> [u8; 20]
    ensures { result ≡ ident.now ++ to_be_bytes w32 q }
{
    let mut bytes = [0u8; 20];
    put(&mut bytes, 0, ident);
    put(&mut bytes, 16, &q.to_be_bytes());
    bytes
}

/// The bytes that each step of eight leaves begins with.
pub(crate) fn heads_of(ident: &[u8; 16], leaves: &[u32; 8]) -> Heads
    ensures { (j : ℕ) → j < 8 → slice_index_or result j [] ≡ ident.now ++ to_be_bytes w32 (slice_index leaves.now j) }
{
    let mut heads = [[0u8; 20]; 8];
    'fill: for j in 0..8 {
        heads[j] = head_of(ident, leaves[j]);
    }
    Heads::new(&heads)
}

// The number of a chain and that of its next step.
fn place_at(i: u16, number: u8) -> [u8; 3]
    ensures is { result ≡ to_be_bytes w16 i ++ number ∷ [] }
    ensures byte { number < 256 }
{
    let [high, low] = i.to_be_bytes();
    [high, low, number]
}

// The bytes after the heads of the steps of eight chains, with the next step's number in each lane.
fn tails_of(numbers: &[u16; 8], from: &[u8; 8], values: &Digests) -> Tails
    ensures held { (j : ℕ) → j < 8 → slice_index_or result j []
        ≡ to_be_bytes w16 (slice_index numbers.now j) ++ slice_index from.now j ∷ slice_index_or values.now j [] }
    ensures bytes { (j : ℕ) → j < 8 → slice_index from.now j < 256 }
{
    let mut places = [[0u8; 3]; 8];
    'fill: for j in 0..8 {
        places[j] = place_at(numbers[j], from[j]);
    }
    Tails::new(&places, values)
}

// How many steps each lane takes: those of its first chain and then those of its second.
fn lane_steps(first: &[u8; 8], second: &[u8; 8]) -> [u32; 8]
    ensures { (j : ℕ) → j < 8 → slice_index result j ≡ slice_index first.now j + slice_index second.now j }
{
    let mut steps = [0u32; 8];
    'fill: for j in 0..8 {
        steps[j] = first[j] as u32 + second[j] as u32;
    }
    steps
}

// The greatest of eight numbers.
#[tactic(auto, using(crate::proofs::GroupLemmas::most_none, crate::proofs::GroupLemmas::most_more))]
fn most(numbers: &[u32; 8]) -> u32
    ensures { result ≡ most_of (slice_index numbers.now) 0 8 }
{
    let mut most = 0;
    'numbers: for j in 0..8 {
        most = most.max(numbers[j]);
    }
    most
}

/// Computes two chains of a leaf with these heads in each lane, one after the other. Writes the values of the first of each, and returns
/// those of the second.
///
/// A lane that is done keeps its value while the others go on, so eight steps are counted for each step of the longest lane.
pub(crate) fn sixteen_chains<L: Ledger>(
    heads: &Heads,
    first: &Eight,
    second: &Eight,
    ends: &mut [[u8; 32]; 8],
    steps: &mut Steps<L>,
) -> [[u8; 32]; 8]
    requires first { (j : ℕ) → j < 8 → slice_index first.now.from j + slice_index first.now.counts j ≤ 256 }
    requires second { (j : ℕ) → j < 8 → slice_index second.now.from j + slice_index second.now.counts j ≤ 256 }
    ensures first { (ident : List ℕ) (q j : ℕ) → AreHeadsOf ident q heads.now → j < 8
        → slice_index_or ends.new j [] ≡ leg_end (leg_of ident q first.now j) }
    ensures second { (ident : List ℕ) (q j : ℕ) → AreHeadsOf ident q heads.now → j < 8
        → slice_index_or result j [] ≡ leg_end (leg_of ident q second.now j) }
    ensures cost { steps.new ≡ steps.old + 8 * most_of (lane_steps first.now second.now) 0 8 }
{
    let mut tails = tails_of(&first.numbers, &first.from, &Digests::new(&first.starts));
    let seconds = tails_of(&second.numbers, &second.from, &Digests::new(&second.starts));
    let counts = lane_steps(&first.counts, &second.counts);
    let most = most(&counts);
    let firsts = u32x8::from_array(lane_steps(&first.counts, &[0; 8]));
    let counts = u32x8::from_array(counts);
    // Each lane takes the value at the end of its first chain in the course of the steps.
    let mut kept = tails.values();
    let mut words = [u32x8::splat(0); 64];
    'steps: for n in 0..most {
        kept.take(&tails.values(), firsts, n);
        tails.take(&seconds, firsts, n);
        let hashes = heads.hash(&tails, &mut words);
        steps.eight();
        tails.go_on(&hashes, counts, n);
    }
    kept.take(&tails.values(), firsts, most);
    tails.take(&seconds, firsts, most);
    *ends = kept.to_bytes();
    tails.values().to_bytes()
}

/// The values of chain i of eight leaves with these heads, after some steps from a number on. It overwrites the words of their schedules,
/// so that a key needs only one such array.
pub(crate) fn chain_of_leaves<L: Ledger>(
    heads: &Heads,
    i: u16,
    from: u8,
    count: u32,
    starts: &Digests,
    words: &mut Words,
    steps: &mut Steps<L>,
) -> Digests
    requires { from + count ≤ 256 }
    ensures value { (ident : List ℕ) (q j : ℕ) → j < 8 → length ident ≡ 16 → slice_index_or heads.now j [] ≡ ident ++ to_be_bytes w32 q
        → slice_index_or result j [] ≡ chain (place ident q i) from count (slice_index_or starts.now j []) }
    ensures cost { steps.new ≡ steps.old + 8 * count }
{
    let mut tails = tails_of(&[i; 8], &[from; 8], starts);
    let counts = u32x8::splat(count);
    'steps: for n in 0..count {
        let hashes = heads.hash(&tails, words);
        steps.eight();
        tails.go_on(&hashes, counts, n);
    }
    tails.values()
}

/// The values of eight chains of a leaf with these heads; the chain `numbers[j]` takes `counts[j]` steps from number `from[j]` on.
///
/// Eight steps are counted for each step of the longest chain.
pub(crate) fn eight_chains<L: Ledger>(
    heads: &Heads,
    first: &Eight,
    steps: &mut Steps<L>,
) -> [[u8; 32]; 8]
    requires { (j : ℕ) → j < 8 → slice_index first.now.from j + slice_index first.now.counts j ≤ 256 }
    ensures value { (ident : List ℕ) (q j : ℕ) → AreHeadsOf ident q heads.now → j < 8
        → slice_index_or result j [] ≡ leg_end (leg_of ident q first.now j) }
    ensures cost { steps.new ≡ steps.old + 8 * most_of (slice_index first.now.counts) 0 8 }
{
    let none = Eight {
        numbers: [0; 8],
        starts: [[0; 32]; 8],
        from: [0; 8],
        counts: [0; 8],
    };
    let mut ends = [[0u8; 32]; 8];
    sixteen_chains(heads, first, &none, &mut ends, steps);
    ends
}
