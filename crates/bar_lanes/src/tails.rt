//! The last 35 bytes of eight messages of 55 bytes.

ghost use Rattle.std.specs.Prelude.{◌≡◌, ◌==◌, ◌++◌, ◌∷◌, ◌+◌, ◌%◌, ℕ, ◌<◌, [], drop, slice_index, slice_index_or, take, if◌then◌else◌, nat_lt};
ghost use Rattle.std.specs.Int.{w32, to_be_bytes};

use crate::digests::Digests;
use crate::state::State;
use crate::vectors::{add, is_among, or, shift_left, shift_right, where_below, where_equal};
use std::marker::Model;
use std::simd::u32x8;

/// The last 35 bytes of eight messages of 55: two bytes and a number of one byte, which are kept as the upper bytes of a word, and a value
/// of 32 bytes. Contracts see the list of these 35 bytes of each message.
#[derive(Drop)]
pub struct Tails {
    pub(crate) place: u32x8,
    pub(crate) values: State,
}

impl Model for Tails {
    ghost use Rattle.std.specs.Prelude.{◌≡◌, ◌%◌, ◌<◌, ℕ, List, slice_index};
    ghost use Rattle.bar_lanes.specs.Code.Lane.{of_lanes, tail_lane};

    ghost Value = { List (List ℕ) };

    ghost view = { λ t. of_lanes (tail_lane t.place t.values) };

    ghost invariant = { λ t. (j : ℕ) → j < 8 → slice_index t.place j % 256 ≡ 0 };
}

// The word whose upper bytes these are.
fn place_of(bytes: &[u8; 3]) -> u32
    ensures low { result % 256 ≡ 0 }
    ensures upper { take 3 (to_be_bytes w32 result) ≡ bytes.now }
{
    u32::from_be_bytes([bytes[0], bytes[1], bytes[2], 0])
}

impl Tails {
    /// The tails that consist of these places, two bytes and a number each, and these values.
    pub fn new(places: &[[u8; 3]; 8], values: &Digests) -> Tails
        ensures { (j : ℕ) → j < 8 → slice_index_or result j [] ≡ slice_index_or places.now j [] ++ slice_index_or values.now j [] }
    {
        Tails {
            place: u32x8::from_array([
                place_of(&places[0]),
                place_of(&places[1]),
                place_of(&places[2]),
                place_of(&places[3]),
                place_of(&places[4]),
                place_of(&places[5]),
                place_of(&places[6]),
                place_of(&places[7]),
            ]),
            values: values.state,
        }
    }

    /// Their values.
    pub fn values(&self) -> Digests
        ensures { (j : ℕ) → j < 8 → slice_index_or result j [] ≡ drop 3 (slice_index_or self.now j []) }
    {
        Digests { state: self.values }
    }

    /// In each lane whose count is above n, takes the value of `values` and increments the number modulo 256.
    #[inline(always)]
    pub fn go_on(&mut self, values: &Digests, counts: u32x8, n: u32)
        ensures { (j : ℕ) → j < 8 → slice_index_or self.new j [] ≡ (if nat_lt n (slice_index counts j)
            then take 2 (slice_index_or self.old j []) ++ (slice_index (slice_index_or self.old j []) 2 + 1) % 256
            ∷ slice_index_or values.now j []
            else slice_index_or self.old j []) }
    {
        self.place = where_below(n, counts, next_place(self.place), self.place);
        self.values = self.values.where_below(n, counts, values.state);
    }

    /// In each lane whose count is n, takes the tail of `others`.
    #[inline(always)]
    pub fn take(&mut self, others: &Tails, counts: u32x8, n: u32)
        ensures { (j : ℕ) → j < 8 → slice_index_or self.new j [] ≡ (if slice_index counts j == n
            then slice_index_or others.now j [] else slice_index_or self.old j []) }
    {
        if is_among(n, counts) {
            self.place = where_equal(n, counts, others.place, self.place);
            self.values = self.values.where_equal(n, counts, others.values);
        }
    }
}

// The place with the next number, in the same chain.
#[inline(always)]
fn next_place(place: u32x8) -> u32x8
    ensures low { (j : ℕ) → j < 8 → slice_index place j % 256 ≡ 0 → slice_index result j % 256 ≡ 0 }
    ensures upper { (j : ℕ) → j < 8 → slice_index place j % 256 ≡ 0 → take 3 (to_be_bytes w32 (slice_index result j))
        ≡ take 2 (to_be_bytes w32 (slice_index place j)) ++ (slice_index (to_be_bytes w32 (slice_index place j)) 2 + 1) % 256 ∷ [] }
{
    let chain = shift_left(shift_right(place, 16), 16);
    let number = shift_left(add(place, u32x8::splat(0x100)), 16);
    or(chain, shift_right(number, 16))
}
