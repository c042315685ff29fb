//! Signing.

ghost use Rattle.std.specs.Prelude.{◌≡◌, ℕ, ◌+◌, ◌*◌, ◌^◌, ◌≤◌, ◌<◌, ◌++◌, ◌/◌, ◌%◌, [], List, length, take, drop, slice_index_or};
ghost use Rattle.std.specs.Int.{w32, to_be_bytes};
ghost use Rattle.bar_lms.specs.Params.{chains, levels, signature_len};
ghost use Rattle.bar_lms.specs.Chains.{joined};
ghost use Rattle.bar_lms.specs.Code.Order.{signed_steps};
ghost use Rattle.bar_lms.specs.Tree.{HoldsTree, value, sibling};
ghost use Rattle.bar_lms.specs.Signature.{signed_value, sibling_at, signature, public_of};
ghost use Rattle.bar_lms.specs.Acceptance.{Accepts};
ghost use Rattle.bar_lms.specs.Code.Remembered.{chain_values};

use crate::acceptance::message_hash;
use crate::all_chains::all_chains;
use crate::bytes::put;
use crate::digits::digits_of;
use crate::legs::{Legs, Row};
use crate::params::Params;
use crate::place::Place;
use crate::private::Private;
use bar_bytes::Steps;
use std::sync::ledger::{Blank, Ledger};

// Writes the first n hashes of a row from byte 40 on.
fn put_row(out: &mut [u8], row: &Row, n: usize)
    requires few { n ≤ 265 }
    requires room { 40 + 32 * n ≤ length out.old }
    ensures grown { (f : ℕ → List ℕ) → ((i : ℕ) → i < n → slice_index_or row.now i [] ≡ f i)
        → take (40 + 32 * n) out.new ≡ take 40 out.old ++ joined f n }
    ensures rest { drop (40 + 32 * n) out.new ≡ drop (40 + 32 * n) out.old }
{
    'hashes: for i in 0..n {
        let hash = row[i];
        put_hash(out, 40 + 32 * i, &hash);
    }
}

// Writes the values of all chains of leaf q after their first step, which begins with the seed.
fn put_starts<L: Ledger>(key: &Private, q: u32, starts: &mut Row, steps: &mut Steps<L>)
    ensures value { (i : ℕ) → i < chains key.now.params.ots → slice_index_or starts.new i [] ≡ value key.now q 0 i }
    ensures cost { steps.new ≡ steps.old + chains key.now.params.ots }
{
    let legs = Legs {
        starts: [key.seed; 265],
        from: [255; 265],
        counts: [1; 265],
    };
    all_chains(
        &key.ident,
        q,
        &legs,
        key.params.ots.chains(),
        1,
        starts,
        steps,
    );
}

// Writes the values of the chains in a signature: each after as many steps from its start as its digit says.
fn take_digits<L: Ledger>(
    key: &Private,
    q: u32,
    hash: &[u8; 32],
    values: &mut Row,
    steps: &mut Steps<L>,
)
    ensures value { (i : ℕ) → i < chains key.now.params.ots → slice_index_or values.new i [] ≡ signed_value key.now q hash.now i }
    ensures cost { steps.new ≡ steps.old + signed_steps key.now.params.ots hash.now }
{
    let ots = key.params.ots;
    let mut legs = Legs {
        starts: [[0; 32]; 265],
        from: [0; 265],
        counts: digits_of(hash, ots),
    };
    put_starts(key, q, &mut legs.starts, steps);
    all_chains(
        &key.ident,
        q,
        &legs,
        ots.chains(),
        ots.last() as u8,
        values,
        steps,
    );
}

/// Writes the values of the chains, from byte 40 on.
pub(crate) fn put_values<L: Ledger>(
    key: &Private,
    q: u32,
    hash: &[u8; 32],
    out: &mut [u8],
    steps: &mut Steps<L>,
)
    requires { 40 + 32 * chains key.now.params.ots ≤ length out.old }
    ensures grown { take (40 + 32 * chains key.now.params.ots) out.new
        ≡ take 40 out.old ++ joined (signed_value key.now q hash.now) (chains key.now.params.ots) }
    ensures rest { drop (40 + 32 * chains key.now.params.ots) out.new ≡ drop (40 + 32 * chains key.now.params.ots) out.old }
    ensures cost { steps.new ≡ steps.old + signed_steps key.now.params.ots hash.now }
{
    let mut values = [[0u8; 32]; 265];
    take_digits(key, q, hash, &mut values, steps);
    put_row(out, &values, key.params.ots.chains());
}

// Writes the same through the remembered values, if there is a place and they aren't in use.
fn put_values_by<L: Ledger>(
    key: &Private,
    place: Option<Place<'_>>,
    q: u32,
    hash: &[u8; 32],
    out: &mut [u8],
    steps: &mut Steps<L>,
)
    requires { 40 + 32 * chains key.now.params.ots ≤ length out.old }
    ensures grown { take (40 + 32 * chains key.now.params.ots) out.new ≡ take 40 out.old ++ chain_values key.now q hash.now }
    ensures rest { drop (40 + 32 * chains key.now.params.ots) out.new ≡ drop (40 + 32 * chains key.now.params.ots) out.old }
{
    let Some(place) = place else {
        put_values(key, q, hash, out, steps);
        return;
    };
    match place.remembered.try_borrow_mut() {
        Ok(mut kept) => kept.put_values(place.number, key, q, hash, out, steps),
        Err(_) => put_values(key, q, hash, out, steps),
    }
}

// The node that has the same parent.
fn sibling(r: usize) -> usize
    requires { (0 < r) × (r < 2 ^ 63) }
    ensures { result ≡ sibling r }
{
    if r % 2 == 0 { r + 1 } else { r - 1 }
}

// Writes the siblings on the path to the root, from offset `at` on.
fn put_path(key: &Private, nodes: &[[u8; 32]], q: u32, out: &mut [u8], at: usize)
    requires tree { HoldsTree key.now nodes.now }
    requires places { length nodes.now ≡ 2 * 2 ^ levels key.now.params.height }
    requires leaf { q < 2 ^ levels key.now.params.height }
    requires room { at + 32 * levels key.now.params.height ≤ length out.old }
    ensures grown { take (at + 32 * levels key.now.params.height) out.new
        ≡ take at out.old ++ joined (sibling_at key.now q) (levels key.now.params.height) }
    ensures rest { drop (at + 32 * levels key.now.params.height) out.new ≡ drop (at + 32 * levels key.now.params.height) out.old }
{
    let mut r = key.params.height.leaves() + q as usize;
    'path: for level in 0..key.params.height.levels() as usize {
        let node = nodes[sibling(r)];
        put_hash(out, at + 32 * level, &node);
        r /= 2;
    }
}

// Writes a hash at offset `at`.
fn put_hash(out: &mut [u8], at: usize, hash: &[u8; 32])
    requires { at + 32 ≤ length out.old }
    ensures grown { take (at + 32) out.new ≡ take at out.old ++ hash.now }
    ensures rest { drop (at + 32) out.new ≡ drop (at + 32) out.old }
    ensures length { length hash.now ≡ 32 }
{
    put(out, at, hash);
}

// Writes a number at offset `at`.
fn put_number(out: &mut [u8], at: usize, number: u32)
    requires { at + 4 ≤ length out.old }
    ensures grown { take (at + 4) out.new ≡ take at out.old ++ to_be_bytes w32 number }
    ensures rest { drop (at + 4) out.new ≡ drop (at + 4) out.old }
{
    put(out, at, &number.to_be_bytes());
}

/// Writes the signature of a message under leaf q with a randomizer (RFC 8554, 5.4.1), and returns its length. If there is a place that
/// keeps the chain values, it takes them from there. Otherwise it computes them, and keeps them in the place if there is one that isn't in
/// use.
///
/// `nodes` is the tree of the key, as `fill` writes it.
pub(crate) fn sign_from<L: Ledger>(
    key: &Private,
    nodes: &[[u8; 32]],
    place: Option<Place<'_>>,
    q: u32,
    randomizer: &[u8; 32],
    message: &[u8],
    out: &mut [u8],
    blank: Blank,
) -> usize
    requires tree { HoldsTree key.now nodes.now }
    requires places { length nodes.now ≡ 2 * 2 ^ levels key.now.params.height }
    requires leaf { q < 2 ^ levels key.now.params.height }
    requires room { signature_len key.now.params ≤ length out.old }
    requires name { blank.name ≡ L.name }
    requires parts { blank.parts ≡ L.parts }
    requires some { 0 < L.parts }
    ensures length { result ≡ signature_len key.now.params }
    ensures value { take result out.new ≡ signature key.now q randomizer.now message.now }
    ensures rest { drop result out.new ≡ drop result out.old }
    ensures accepted { Accepts (public_of key.now) message.now (take result out.new) }
{
    let mut steps = Steps::<L>::new(blank);
    let Params { height, ots } = key.params;
    put_number(out, 0, q);
    put_number(out, 4, ots.number());
    put_hash(out, 8, randomizer);
    let hash = message_hash(&key.ident, q, randomizer, message, &mut steps);
    put_values_by(key, place, q, &hash, out, &mut steps);
    let at = 40 + 32 * ots.chains();
    put_number(out, at, height.number());
    put_path(key, nodes, q, out, at + 4);
    key.params.sig_len()
}
