//! Signed messages.
ghost use Rattle.std.specs.Prelude.{◌≡◌, ◌+◌, ◌<◌, ◌≤◌, ◌++◌, length, take};

use bar_seal::Scheme;

/// Appends its signature to the message at the start of a buffer, and returns the length of both.
pub fn sign_behind<S: Scheme>(scheme: &S, leaf: u32, len: usize, buf: &mut [u8]) -> usize
    requires leaf { leaf < S.leaf_count scheme.now }
    requires room { len + S.Verifier.signature_len scheme.now ≤ length buf.old }
    ensures signed { take result buf.new ≡ take len buf.old ++ S.signed scheme.now leaf (take len buf.old) }
    ensures end { result ≡ len + S.Verifier.signature_len scheme.now }
{
    let (message, rest) = buf.split_at_mut(len);
    len + scheme.sign(leaf, message, rest)
}
