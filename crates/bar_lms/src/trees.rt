//! A tree of a given seed and name: its nodes, its public key and its signatures.

ghost use Rattle.std.specs.Prelude.{◌≡◌, ◌*◌, ◌^◌, ◌≤◌, ◌<◌, [], true, length, take, drop, slice_index_or};
ghost use Rattle.bar_lms.specs.Params.{levels, signature_len};
ghost use Rattle.bar_lms.specs.Tree.{HoldsTree, root, private_by};
ghost use Rattle.bar_lms.specs.Signature.{key_bytes, public_of, signature};
ghost use Rattle.bar_lms.specs.Acceptance.{Accepts, is_accepted_under, is_key_of};

use crate::bytes::put;
use crate::params::Params;
use crate::place::Place;
use crate::private::Private;
use crate::signing::sign_from;
use crate::tree::fill;
use std::marker::Brand;
use std::sync::ledger::Blank;

// The private key with these parts.
fn private_by(params: Params, seed: &[u8; 32], ident: &[u8; 16]) -> Private
    ensures value { result ≡ private_by params seed.now ident.now }
    ensures name { length result.ident ≡ 16 }
{
    Private {
        params,
        ident: *ident,
        seed: *seed,
    }
}

/// Writes the nodes of a tree (RFC 8554, 5.3) at the places of their numbers: the root at 1, the leaves from 2 to the power of the height
/// on. Place 0 is unchanged.
pub fn fill_tree(params: Params, seed: &[u8; 32], ident: &[u8; 16], nodes: &mut [[u8; 32]])
    requires { length nodes.old ≡ 2 * 2 ^ levels params.height }
    ensures held { HoldsTree (private_by params seed.now ident.now) nodes.new }
    ensures root { slice_index_or nodes.new 1 [] ≡ root (private_by params seed.now ident.now) }
    ensures first { slice_index_or nodes.new 0 [] ≡ slice_index_or nodes.old 0 [] }
{
    fill(&private_by(params, seed, ident), nodes);
}

/// The public key with a root as bytes (RFC 8554, 5.3).
pub fn public_key(params: Params, ident: &[u8; 16], root: &[u8; 32]) -> [u8; 56]
    ensures value { result ≡ key_bytes (record { params = params; ident = ident.now; root = root.now }) }
    ensures types { is_key_of params result ≡ true }
{
    let mut out = [0u8; 56];
    put(&mut out, 0, &params.height.number().to_be_bytes());
    put(&mut out, 4, &params.ots.number().to_be_bytes());
    put(&mut out, 8, ident);
    put(&mut out, 24, root);
    out
}

/// Writes the signature of a message under a leaf with a randomizer (RFC 8554, 5.4.1), and returns its length. It is accepted under the
/// public key of the tree.
///
/// `nodes` is the tree of the seed and the name, as `fill_tree` writes it.
pub fn sign_tree(
    params: Params,
    seed: &[u8; 32],
    ident: &[u8; 16],
    nodes: &[[u8; 32]],
    leaf: u32,
    randomizer: &[u8; 32],
    message: &[u8],
    out: &mut [u8],
) -> usize
    requires tree { HoldsTree (private_by params seed.now ident.now) nodes.now }
    requires places { length nodes.now ≡ 2 * 2 ^ levels params.height }
    requires leaf { leaf < 2 ^ levels params.height }
    requires room { signature_len params ≤ length out.old }
    ensures length { result ≡ signature_len params }
    ensures value { take result out.new ≡ signature (private_by params seed.now ident.now) leaf randomizer.now message.now }
    ensures rest { drop result out.new ≡ drop result out.old }
    ensures accepted { Accepts (public_of (private_by params seed.now ident.now)) message.now (take result out.new) }
    ensures accepted_under { is_accepted_under params
        (key_bytes (record { params = params; ident = ident.now; root = slice_index_or nodes.now 1 [] })) message.now (take result out.new) ≡ true }
{
    sign_tree_at(
        params, seed, ident, nodes, leaf, randomizer, message, out, None,
    )
}

/// Writes the same signature as `sign_tree`. If there is a place that keeps the chain values of this tree, this leaf and this message, it
/// takes them from there. Otherwise it computes them, and keeps them in the place if there is one that isn't in use.
pub fn sign_tree_at(
    params: Params,
    seed: &[u8; 32],
    ident: &[u8; 16],
    nodes: &[[u8; 32]],
    leaf: u32,
    randomizer: &[u8; 32],
    message: &[u8],
    out: &mut [u8],
    place: Option<Place<'_>>,
) -> usize
    requires tree { HoldsTree (private_by params seed.now ident.now) nodes.now }
    requires places { length nodes.now ≡ 2 * 2 ^ levels params.height }
    requires leaf { leaf < 2 ^ levels params.height }
    requires room { signature_len params ≤ length out.old }
    ensures length { result ≡ signature_len params }
    ensures value { take result out.new ≡ signature (private_by params seed.now ident.now) leaf randomizer.now message.now }
    ensures rest { drop result out.new ≡ drop result out.old }
    ensures accepted { Accepts (public_of (private_by params seed.now ident.now)) message.now (take result out.new) }
    ensures accepted_under { is_accepted_under params
        (key_bytes (record { params = params; ident = ident.now; root = slice_index_or nodes.now 1 [] })) message.now (take result out.new) ≡ true }
{
    let key = private_by(params, seed, ident);
    sign_from::<Brand>(
        &key,
        nodes,
        place,
        leaf,
        randomizer,
        message,
        out,
        Blank::new(1),
    )
}
