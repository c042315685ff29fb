//! Eight values of 32 bytes side by side.

ghost use Rattle.std.specs.Prelude.{◌≡◌, ◌==◌, ℕ, ◌<◌, [], slice_index, slice_index_or, if◌then◌else◌};

use crate::eight::{digest_at, lanes_of, words_at};
use crate::state::State;
use crate::vectors::is_among;
use std::marker::Model;
use std::simd::u32x8;

/// Eight values of 32 bytes: a vector for each of their eight words, with a lane for each value. Contracts see the list of the values.
#[derive(Drop)]
pub struct Digests {
    pub(crate) state: State,
}

impl Model for Digests {
    ghost use Rattle.std.specs.Prelude.{ℕ, List};
    ghost use Rattle.bar_lanes.specs.Code.Lane.{digest_lane, of_lanes};

    ghost Value = { List (List ℕ) };

    ghost view = { λ d. of_lanes (digest_lane d.state) };
}

impl Digests {
    /// These values.
    pub fn new(values: &[[u8; 32]; 8]) -> Digests
        ensures { (j : ℕ) → j < 8 → slice_index_or result j [] ≡ slice_index_or values.now j [] }
    {
        Digests {
            state: State {
                a: words_at(values, 0),
                b: words_at(values, 1),
                c: words_at(values, 2),
                d: words_at(values, 3),
                e: words_at(values, 4),
                f: words_at(values, 5),
                g: words_at(values, 6),
                h: words_at(values, 7),
            },
        }
    }

    /// The eight values as an array.
    pub fn to_bytes(&self) -> [[u8; 32]; 8]
        ensures { (j : ℕ) → j < 8 → slice_index_or result j [] ≡ slice_index_or self.now j [] }
    {
        let lanes = lanes_of(self.state.words());
        let mut values = [[0u8; 32]; 8];
        'write: for j in 0..8 {
            values[j] = digest_at(&lanes, j);
        }
        values
    }

    /// In each lane whose count is n, replaces the value by that of `others`.
    #[inline(always)]
    pub fn take(&mut self, others: &Digests, counts: u32x8, n: u32)
        ensures { (j : ℕ) → j < 8 → slice_index_or self.new j [] ≡ (if slice_index counts j == n
            then slice_index_or others.now j [] else slice_index_or self.old j []) }
    {
        if is_among(n, counts) {
            self.state = self.state.where_equal(n, counts, others.state);
        }
    }
}
