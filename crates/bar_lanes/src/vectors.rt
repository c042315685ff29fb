//! Operators on vectors of eight words, each lane by itself (FIPS 180-4, 3.2).

ghost use Rattle.std.specs.Prelude.{◌≡◌, ◌==◌, ℕ, ◌*◌, ◌%◌, ◌<◌, ◌/◌, ◌^◌, ◌-◌, bit_and, bit_or, bit_xor, false, if◌then◌else◌, nat_lt, slice_index};
ghost use Rattle.std.specs.Int.{w32, rotate_right, bit_not};
ghost use Rattle.sha2.specs.Sha256.{add32};

use std::simd::u32x8;

// Sums modulo 2^32.
#[inline(always)]
pub(crate) fn add(a: u32x8, b: u32x8) -> u32x8
    ensures { (j : ℕ) → j < 8 → slice_index result j ≡ add32 (slice_index a j) (slice_index b j) }
{
    a + b
}

// Exclusive or.
#[inline(always)]
pub(crate) fn xor(a: u32x8, b: u32x8) -> u32x8
    ensures { (j : ℕ) → j < 8 → slice_index result j ≡ bit_xor (slice_index a j) (slice_index b j) }
{
    a ^ b
}

// And.
#[inline(always)]
pub(crate) fn and(a: u32x8, b: u32x8) -> u32x8
    ensures { (j : ℕ) → j < 8 → slice_index result j ≡ bit_and (slice_index a j) (slice_index b j) }
{
    a & b
}

// Or.
#[inline(always)]
pub(crate) fn or(a: u32x8, b: u32x8) -> u32x8
    ensures { (j : ℕ) → j < 8 → slice_index result j ≡ bit_or (slice_index a j) (slice_index b j) }
{
    a | b
}

// Complement.
#[inline(always)]
pub(crate) fn not(a: u32x8) -> u32x8
    ensures { (j : ℕ) → j < 8 → slice_index result j ≡ bit_not w32 (slice_index a j) }
{
    !a
}

// Shift to the right by k bits (FIPS 180-4, 3.2).
#[inline(always)]
pub(crate) fn shift_right(a: u32x8, k: u32) -> u32x8
    requires { k < 32 }
    ensures { (j : ℕ) → j < 8 → slice_index result j ≡ slice_index a j / 2 ^ k }
{
    a >> u32x8::splat(k)
}

// Shift to the left by k bits (FIPS 180-4, 3.2).
#[inline(always)]
pub(crate) fn shift_left(a: u32x8, k: u32) -> u32x8
    requires { k < 32 }
    ensures { (j : ℕ) → j < 8 → slice_index result j ≡ slice_index a j * 2 ^ k % 2 ^ 32 }
{
    a << u32x8::splat(k)
}

// Rotation to the right by k bits (FIPS 180-4, 3.2).
#[inline(always)]
pub(crate) fn rotate_right(a: u32x8, k: u32) -> u32x8
    requires { (0 < k) × (k < 32) }
    ensures { (j : ℕ) → j < 8 → slice_index result j ≡ rotate_right w32 (slice_index a j) k }
{
    or(shift_right(a, k), shift_left(a, 32 - k))
}

// The lanes of `new` where n is below the lane of `counts`, and those of `old` elsewhere.
#[inline(always)]
pub(crate) fn where_below(n: u32, counts: u32x8, new: u32x8, old: u32x8) -> u32x8
    ensures { (j : ℕ) → j < 8 → slice_index result j ≡ (if nat_lt n (slice_index counts j) then slice_index new j else slice_index old j) }
{
    u32x8::splat(n).simd_lt(counts).select(new, old)
}

// The lanes of `new` where the lane of `counts` is n, and those of `old` elsewhere.
#[inline(always)]
pub(crate) fn where_equal(n: u32, counts: u32x8, new: u32x8, old: u32x8) -> u32x8
    ensures { (j : ℕ) → j < 8 → slice_index result j ≡ (if slice_index counts j == n then slice_index new j else slice_index old j) }
{
    counts.simd_eq(u32x8::splat(n)).select(new, old)
}

// Whether a lane of `counts` is n.
#[inline(always)]
pub(crate) fn is_among(n: u32, counts: u32x8) -> bool
    ensures { result ≡ false → (j : ℕ) → j < 8 → (slice_index counts j == n) ≡ false }
{
    counts.simd_eq(u32x8::splat(n)).any()
}
