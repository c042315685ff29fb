//! The computation of all chains of a leaf, the longest first.

ghost use Rattle.std.specs.Prelude.{◌≡◌, ℕ, ◌+◌, ◌*◌, ◌/◌, ◌%◌, ◌≤◌, ◌<◌, [], List, slice_index, slice_index_or};
ghost use Rattle.bar_lms.specs.Chains.{most_of, in_pairs, in_group, total_from};
ghost use Rattle.bar_lms.specs.Code.Lanes.{AreHeadsOf};
ghost use Rattle.bar_lms.specs.Code.Order.{longest_by_eights, steps_at, reached};

use crate::chains::chain;
use crate::groups::{eight_chains, heads_of, sixteen_chains};
use crate::legs::{Legs, Row, eight_legs};
use crate::order::{Order, eight_back_from, eight_from, longest_first};
use bar_bytes::Steps;
use bar_lanes::Heads;
use std::sync::ledger::Ledger;

// Writes eight hashes into a row, each at its number.
fn keep_eight(row: &mut Row, numbers: &[u16; 8], hashes: &[[u8; 32]; 8])
    requires { (j : ℕ) → j < 8 → slice_index numbers.now j < 265 }
    ensures { (f : ℕ → List ℕ) → ((j : ℕ) → j < 8 → slice_index_or hashes.now j [] ≡ f (slice_index numbers.now j))
        → ((i : ℕ) → slice_index_or row.old i [] ≡ f i → slice_index_or row.new i [] ≡ f i)
        × ((j : ℕ) → j < 8 → slice_index_or row.new (slice_index numbers.now j) [] ≡ f (slice_index numbers.now j)) }
{
    'hashes: for j in 0..8 {
        row[numbers[j] as usize] = hashes[j];
    }
}

// Computes the chains with these numbers, in each lane one of the first and then one of the second, and keeps their values in a row.
fn take_sixteen<L: Ledger>(
    heads: &Heads,
    legs: &Legs,
    first: [u16; 8],
    second: [u16; 8],
    row: &mut Row,
    steps: &mut Steps<L>,
)
    requires inside { (j : ℕ) → j < 8 → (slice_index first j < 265) × (slice_index second j < 265) }
    requires first { (j : ℕ) → j < 8
        → slice_index legs.now.from (slice_index first j) + slice_index legs.now.counts (slice_index first j) ≤ 256 }
    requires second { (j : ℕ) → j < 8
        → slice_index legs.now.from (slice_index second j) + slice_index legs.now.counts (slice_index second j) ≤ 256 }
    ensures kept { (ident : List ℕ) (q i : ℕ) → AreHeadsOf ident q heads.now → slice_index_or row.old i [] ≡ reached ident q legs.now i
        → slice_index_or row.new i [] ≡ reached ident q legs.now i }
    ensures first { (ident : List ℕ) (q j : ℕ) → AreHeadsOf ident q heads.now → j < 8
        → slice_index_or row.new (slice_index first j) [] ≡ reached ident q legs.now (slice_index first j) }
    ensures second { (ident : List ℕ) (q j : ℕ) → AreHeadsOf ident q heads.now → j < 8
        → slice_index_or row.new (slice_index second j) [] ≡ reached ident q legs.now (slice_index second j) }
    ensures cost { steps.new ≡ steps.old
        + 8 * most_of (λ j. steps_at legs.now.counts first j + steps_at legs.now.counts second j) 0 8 }
{
    let first = eight_legs(legs, first);
    let second = eight_legs(legs, second);
    let mut ends = [[0u8; 32]; 8];
    let values = sixteen_chains(heads, &first, &second, &mut ends, steps);
    keep_eight(row, &first.numbers, &ends);
    keep_eight(row, &second.numbers, &values);
}

// Computes the chains of an order in groups of sixteen. Each lane takes one of the longer eight and then one of the shorter, so that the
// longest of the shorter follows the shortest of the longer.
fn take_pairs<L: Ledger>(
    heads: &Heads,
    legs: &Legs,
    order: &Order,
    n: usize,
    row: &mut Row,
    steps: &mut Steps<L>,
)
    requires few { n ≤ 265 }
    requires inside { (j : ℕ) → j < n → slice_index order.now j < n }
    requires bytes { (i : ℕ) → i < n → slice_index legs.now.from i + slice_index legs.now.counts i ≤ 256 }
    ensures value { (ident : List ℕ) (q j : ℕ) → AreHeadsOf ident q heads.now → j < 16 * (n / 16)
        → slice_index_or row.new (slice_index order.now j) [] ≡ reached ident q legs.now (slice_index order.now j) }
    ensures cost { steps.new ≡ steps.old + in_pairs (steps_at legs.now.counts order.now) (n / 16) }
{
    'groups: for g in 0..n / 16 {
        let first = eight_from(order, 16 * g);
        let second = eight_back_from(order, 16 * g + 15);
        take_sixteen(heads, legs, first, second, row, steps);
    }
}

// Computes the eight chains after the groups of sixteen of an order, if there are that many.
fn take_group<L: Ledger>(
    heads: &Heads,
    legs: &Legs,
    order: &Order,
    n: usize,
    row: &mut Row,
    steps: &mut Steps<L>,
)
    requires few { n ≤ 265 }
    requires inside { (j : ℕ) → j < n → slice_index order.now j < n }
    requires bytes { (i : ℕ) → i < n → slice_index legs.now.from i + slice_index legs.now.counts i ≤ 256 }
    ensures value { (ident : List ℕ) (q : ℕ) → AreHeadsOf ident q heads.now
        → ((j : ℕ) → j < 16 * (n / 16) → slice_index_or row.old (slice_index order.now j) [] ≡ reached ident q legs.now (slice_index order.now j))
        → (j : ℕ) → j < 8 * (n / 8)
        → slice_index_or row.new (slice_index order.now j) [] ≡ reached ident q legs.now (slice_index order.now j) }
    ensures cost { steps.new ≡ steps.old + in_group (steps_at legs.now.counts order.now) n }
{
    if n / 8 % 2 == 1 {
        let eight = eight_legs(legs, eight_from(order, 16 * (n / 16)));
        let values = eight_chains(heads, &eight, steps);
        keep_eight(row, &eight.numbers, &values);
    }
}

// Computes the last chains of an order, which are too few for a group of eight.
fn take_singles<L: Ledger>(
    ident: &[u8; 16],
    q: u32,
    legs: &Legs,
    order: &Order,
    n: usize,
    row: &mut Row,
    steps: &mut Steps<L>,
)
    requires few { n ≤ 265 }
    requires inside { (j : ℕ) → j < n → slice_index order.now j < n }
    requires bytes { (i : ℕ) → i < n → slice_index legs.now.from i + slice_index legs.now.counts i ≤ 256 }
    requires groups { (j : ℕ) → j < 8 * (n / 8)
        → slice_index_or row.old (slice_index order.now j) [] ≡ reached ident.now q legs.now (slice_index order.now j) }
    ensures value { (j : ℕ) → j < n
        → slice_index_or row.new (slice_index order.now j) [] ≡ reached ident.now q legs.now (slice_index order.now j) }
    ensures cost { steps.new ≡ steps.old + total_from (steps_at legs.now.counts order.now) (8 * (n / 8)) (n % 8) }
{
    'singles: for j in 8 * (n / 8)..n {
        let i = order[j] as usize;
        let from = legs.from[i] as u32;
        let to = from + legs.counts[i] as u32;
        row[i] = chain(ident, q, i as u16, &legs.starts[i], from, to, steps);
    }
}

/// Writes the values of the first n chains of leaf q at the ends of their legs. No leg may have more than `top` steps.
///
/// The longest are computed first, sixteen of similar length in eight lanes. The last few are computed one by one.
pub(crate) fn all_chains<L: Ledger>(
    ident: &[u8; 16],
    q: u32,
    legs: &Legs,
    n: usize,
    top: u8,
    row: &mut Row,
    steps: &mut Steps<L>,
)
    requires few { n ≤ 265 }
    requires bytes { (i : ℕ) → i < n → slice_index legs.now.from i + slice_index legs.now.counts i ≤ 256 }
    requires bound { (i : ℕ) → i < n → slice_index legs.now.counts i ≤ top }
    ensures value { (i : ℕ) → i < n → slice_index_or row.new i [] ≡ reached ident.now q legs.now i }
    ensures cost { steps.new ≡ steps.old + longest_by_eights (slice_index legs.now.counts) n top }
{
    let order = longest_first(&legs.counts, n, top);
    let heads = heads_of(ident, &[q; 8]);
    take_pairs(&heads, legs, &order, n, row, steps);
    take_group(&heads, legs, &order, n, row, steps);
    take_singles(ident, q, legs, &order, n, row, steps);
}
