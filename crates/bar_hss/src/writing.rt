//! Parts of a signature, each at its place.

ghost use Rattle.std.specs.Prelude.{◌≡◌, ◌+◌, ◌*◌, ◌^◌, ◌≤◌, ◌<◌, ◌++◌, length, take, drop};
ghost use Rattle.std.specs.Int.{w32, to_be_bytes};
ghost use Rattle.bar_lms.specs.Params.{levels, signature_len};
ghost use Rattle.bar_lms.specs.Tree.{HoldsTree, private_by};
ghost use Rattle.bar_lms.specs.Signature.{signature};

use bar_lms::{Params, Place, sign_tree_at};

/// Writes the signature of a message under a leaf of a tree from an offset on, by the chain values that a place remembers.
pub fn put_signature(
    params: Params,
    seed: &[u8; 32],
    ident: &[u8; 16],
    nodes: &[[u8; 32]],
    leaf: u32,
    randomizer: &[u8; 32],
    message: &[u8],
    out: &mut [u8],
    at: usize,
    place: Place<'_>,
)
    requires tree { HoldsTree (private_by params seed.now ident.now) nodes.now }
    requires places { length nodes.now ≡ 2 * 2 ^ levels params.height }
    requires leaf { leaf < 2 ^ levels params.height }
    requires room { at + signature_len params ≤ length out.old }
    ensures grown { take (at + signature_len params) out.new
        ≡ take at out.old ++ signature (private_by params seed.now ident.now) leaf randomizer.now message.now }
    ensures rest { drop (at + signature_len params) out.new ≡ drop (at + signature_len params) out.old }
{
    let (_before, rest) = out.split_at_mut(at);
    sign_tree_at(
        params,
        seed,
        ident,
        nodes,
        leaf,
        randomizer,
        message,
        rest,
        Some(place),
    );
}

/// Writes a number at the beginning.
pub fn put_number(out: &mut [u8], number: u32)
    requires { 4 ≤ length out.old }
    ensures front { take 4 out.new ≡ to_be_bytes w32 number }
    ensures rest { drop 4 out.new ≡ drop 4 out.old }
{
    out[..4].copy_from_slice(&number.to_be_bytes());
}

/// Writes a public key at offset `at`.
pub fn put_key(out: &mut [u8], at: usize, key: &[u8; 56])
    requires { at + 56 ≤ length out.old }
    ensures grown { take (at + 56) out.new ≡ take at out.old ++ key.now }
    ensures rest { drop (at + 56) out.new ≡ drop (at + 56) out.old }
{
    out[at..at + 56].copy_from_slice(key.as_slice());
}
