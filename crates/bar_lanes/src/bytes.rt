//! Rows of bytes, a vector of 32 at a time.

ghost use Rattle.std.specs.Prelude.{◌≡◌, ◌*◌, length, bit_xor};
ghost use Rattle.std.specs.Simd.Lanes.{zip2};

use std::simd::u8x32;

const LANES: usize = 32;

/// XORs `src` into `dst`, byte by byte. Both have n bytes.
pub fn xor_into(dst: &mut [u8], src: &[u8])
    requires { length src.now ≡ length dst.old }
    ensures { dst.new ≡ zip2 bit_xor dst.old src.now }
{
    let whole = dst.len() / LANES;
    'wide: for i in 0..whole {
        let at = LANES * i;
        let lanes = u8x32::from_slice(&dst[at..]) ^ u8x32::from_slice(&src[at..]);
        lanes.copy_to_slice(&mut dst[at..]);
    }
    'narrow: for k in LANES * whole..dst.len() {
        dst[k] ^= src[k];
    }
}
