//! The eight words of eight hash values or states.

ghost use Rattle.std.specs.Prelude.{◌≡◌, ◌==◌, ◌∷◌, [], ℕ, ◌<◌, slice_index, if◌then◌else◌, nat_lt};
ghost use Rattle.bar_lanes.specs.Code.Lane.{state_lane};

use crate::vectors::{where_below, where_equal};
use std::simd::u32x8;

/// The eight words of eight hash values or states (FIPS 180-4, 6.2), a vector for each, with a lane for each value.
#[derive(Clone, Copy)]
pub struct State {
    pub(crate) a: u32x8,
    pub(crate) b: u32x8,
    pub(crate) c: u32x8,
    pub(crate) d: u32x8,
    pub(crate) e: u32x8,
    pub(crate) f: u32x8,
    pub(crate) g: u32x8,
    pub(crate) h: u32x8,
}

impl State {
    /// The state with these words.
    #[inline(always)]
    pub(crate) fn of(words: [u32x8; 8]) -> State
        ensures { result.a ∷ result.b ∷ result.c ∷ result.d ∷ result.e ∷ result.f ∷ result.g ∷ result.h ∷ [] ≡ words }
    {
        let [a, b, c, d, e, f, g, h] = words;
        State {
            a,
            b,
            c,
            d,
            e,
            f,
            g,
            h,
        }
    }

    /// Its words.
    #[inline(always)]
    pub(crate) fn words(self) -> [u32x8; 8]
        ensures { result ≡ self.a ∷ self.b ∷ self.c ∷ self.d ∷ self.e ∷ self.f ∷ self.g ∷ self.h ∷ [] }
    {
        [
            self.a, self.b, self.c, self.d, self.e, self.f, self.g, self.h,
        ]
    }

    /// The lanes of `new` where n is below the lane of `counts`, and its own elsewhere.
    #[inline(always)]
    pub(crate) fn where_below(self, n: u32, counts: u32x8, new: State) -> State
        ensures { (j : ℕ) → j < 8 → state_lane j result ≡ (if nat_lt n (slice_index counts j) then state_lane j new else state_lane j self) }
    {
        State {
            a: where_below(n, counts, new.a, self.a),
            b: where_below(n, counts, new.b, self.b),
            c: where_below(n, counts, new.c, self.c),
            d: where_below(n, counts, new.d, self.d),
            e: where_below(n, counts, new.e, self.e),
            f: where_below(n, counts, new.f, self.f),
            g: where_below(n, counts, new.g, self.g),
            h: where_below(n, counts, new.h, self.h),
        }
    }

    /// The lanes of `new` where the lane of `counts` is n, and its own elsewhere.
    #[inline(always)]
    pub(crate) fn where_equal(self, n: u32, counts: u32x8, new: State) -> State
        ensures { (j : ℕ) → j < 8 → state_lane j result ≡ (if slice_index counts j == n then state_lane j new else state_lane j self) }
    {
        State {
            a: where_equal(n, counts, new.a, self.a),
            b: where_equal(n, counts, new.b, self.b),
            c: where_equal(n, counts, new.c, self.c),
            d: where_equal(n, counts, new.d, self.d),
            e: where_equal(n, counts, new.e, self.e),
            f: where_equal(n, counts, new.f, self.f),
            g: where_equal(n, counts, new.g, self.g),
            h: where_equal(n, counts, new.h, self.h),
        }
    }
}
