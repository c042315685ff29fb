//! The keystream, and bytes XOR the keystream.

ghost use Rattle.std.specs.Prelude.{◌≡◌, ◌+◌, ◌*◌, ◌%◌, length, drop};
ghost use Rattle.bar_case.specs.Keystream.{keystream, xor_bytes};

use bar_lanes::xor_into;
use rand_chacha::ChaCha20Rng;
use rand_core::{Rng, SeedableRng};

/// Writes the bytes of the keystream under a key, from a word of four bytes on.
pub(crate) fn keystream(key: &[u8; 32], word: usize, out: &mut [u8])
    ensures { out.new ≡ drop (4 * word) (keystream key.now (4 * word + length out.old)) }
{
    let mut rng = ChaCha20Rng::from_seed(*key);
    rng.set_word_pos(word as u128);
    rng.fill_bytes(out);
}

/// Writes bytes XOR the keystream from byte `at` on: the cipher of the plaintext at this offset, or the plaintext of a cipher.
#[tactic(auto, using(crate::proofs::Xor::zip2_is_xor, crate::proofs::Xor::xor_swap))]
pub(crate) fn crypt(key: &[u8; 32], at: usize, bytes: &[u8], out: &mut [u8])
    requires length { length bytes.now ≡ length out.old }
    requires word { at % 4 ≡ 0 }
    ensures { out.new ≡ xor_bytes bytes.now (drop at (keystream key.now (at + length bytes.now))) }
{
    keystream(key, at / 4, out);
    xor_into(out, bytes);
}
