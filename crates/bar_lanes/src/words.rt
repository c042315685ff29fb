//! Operators on rows of 64-bit words.

ghost use Rattle.std.specs.Prelude.{◌≡◌, ◌*◌, ◌+◌, ◌≤◌, length, bit_and, count_ones, sum_by};
ghost use Rattle.std.specs.Int.{w64, bit_not};
ghost use Rattle.std.specs.Simd.Lanes.{zip2};

use std::simd::u64x4;

const LANES: usize = 4;

/// Writes each word of `a`, without the bits of the word of `b` at the same index, to `out`. All three have n words.
pub fn and_not(a: &[u64], b: &[u64], out: &mut [u64])
    requires second { length b.now ≡ length a.now }
    requires written { length out.old ≡ length a.now }
    ensures { out.new ≡ zip2 (λ x y. bit_and x (bit_not w64 y)) a.now b.now }
{
    let whole = a.len() / LANES;
    'wide: for i in 0..whole {
        let at = LANES * i;
        let lanes = u64x4::from_slice(&a[at..]) & !u64x4::from_slice(&b[at..]);
        lanes.copy_to_slice(&mut out[at..]);
    }
    'narrow: for k in LANES * whole..a.len() {
        out[k] = a[k] & !b[k];
    }
}

/// The number of bits that are set in at most 1,024 words.
pub fn count(a: &[u64]) -> u32
    requires { length a.now ≤ 1024 }
    ensures { result ≡ sum_by count_ones a.now }
{
    let whole = a.len() / LANES;
    let mut sums = u64x4::splat(0);
    'wide: for i in 0..whole {
        sums = sums.strict_add(u64x4::from_slice(&a[LANES * i..]).count_ones());
    }
    let mut sum = sums.strict_reduce_sum() as u32;
    'narrow: for k in LANES * whole..a.len() {
        sum += a[k].count_ones();
    }
    sum
}
