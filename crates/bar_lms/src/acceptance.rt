//! Acceptance of a signature.

ghost use Rattle.std.specs.Prelude.{◌≡◌, ℕ, ◌+◌, ◌-◌, ◌*◌, ◌/◌, ◌%◌, ◌^◌, ◌≤◌, ◌<◌, ◌++◌, ◌↔◌, [], List, IsTrue, length, slice_index_or};
ghost use Rattle.std.specs.Int.{w16, w32, to_be_bytes};
ghost use Rattle.sha2.specs.Hashers.{Holds256};
ghost use Rattle.bar_lms.specs.Params.{chains, last, levels, signature_len, most_steps};
ghost use Rattle.bar_lms.specs.Chains.{joined, steps_left, message_hash, one_time_key};
ghost use Rattle.bar_lms.specs.Code.Order.{longest_by_eights};
ghost use Rattle.bar_lms.specs.Tree.{leaf_node, parent, climb};
ghost use Rattle.bar_lms.specs.Signature.{hash_at, number_at, end_at, candidate, candidate_steps};
ghost use Rattle.bar_lms.specs.Acceptance.{Accepts, is_well_formed, is_accepted, steps_taken};

use crate::all_chains::all_chains;
use crate::digits::digits_of;
use crate::domains::{D_INTR, D_LEAF, D_MESG, D_PBLC};
use crate::key::PublicKey;
use crate::legs::{Legs, Row};
use crate::params::{Height, Ots, Params};
use bar_bytes::Steps;
use sha2::{Digest, Sha256};
use std::sync::ledger::Ledger;

// Counts a hash and begins it as all but those of chains begin: with the key's name, the number of a leaf or node, and the kind.
pub(crate) fn head<L: Ledger>(
    ident: &[u8; 16],
    number: u32,
    kind: u16,
    steps: &mut Steps<L>,
) -> Sha256
    ensures held { Holds256 result (ident.now ++ to_be_bytes w32 number ++ to_be_bytes w16 kind) }
    ensures cost { steps.new ≡ steps.old + 1 }
{
    steps.tick();
    let mut hasher = Sha256::new();
    hasher.update(ident.as_slice());
    hasher.update(number.to_be_bytes());
    hasher.update(kind.to_be_bytes());
    hasher
}

// Hash i of a row of hashes.
#[tactic(auto, unfolding(crate::specs::Signature::hash_at))]
pub(crate) fn hash_at(row: &[u8], i: usize) -> &[u8]
    requires { 32 * i + 32 ≤ length row.now }
    ensures value { result.now ≡ hash_at row.now i }
    ensures length { length result.now ≡ 32 }
{
    &row[32 * i..32 * i + 32]
}

// Node r from its children.
#[tactic(auto, unfolding(crate::specs::Tree::parent))]
pub(crate) fn parent<L: Ledger>(
    ident: &[u8; 16],
    r: u32,
    left: &[u8],
    right: &[u8],
    steps: &mut Steps<L>,
) -> [u8; 32]
    ensures value { result ≡ parent ident.now r left.now right.now }
    ensures cost { steps.new ≡ steps.old + 1 }
{
    let mut hasher = head(ident, r, D_INTR, steps);
    hasher.update(left);
    hasher.update(right);
    hasher.finalize()
}

// The same from two arrays.
pub(crate) fn parent_of<L: Ledger>(
    ident: &[u8; 16],
    r: u32,
    left: &[u8; 32],
    right: &[u8; 32],
    steps: &mut Steps<L>,
) -> [u8; 32]
    ensures value { result ≡ parent ident.now r left.now right.now }
    ensures cost { steps.new ≡ steps.old + 1 }
{
    parent(ident, r, left, right, steps)
}

// A leaf, as node r, from its one-time key.
#[tactic(auto, unfolding(crate::specs::Tree::leaf_node))]
pub(crate) fn leaf_node<L: Ledger>(
    ident: &[u8; 16],
    r: u32,
    key: &[u8; 32],
    steps: &mut Steps<L>,
) -> [u8; 32]
    ensures value { result ≡ leaf_node ident.now r key.now }
    ensures cost { steps.new ≡ steps.old + 1 }
{
    let mut hasher = head(ident, r, D_LEAF, steps);
    hasher.update(key.as_slice());
    hasher.finalize()
}

// The root, from a leaf and the siblings on its path.
fn top<L: Ledger>(
    ident: &[u8; 16],
    q: u32,
    leaf: [u8; 32],
    path: &[u8],
    height: Height,
    steps: &mut Steps<L>,
) -> [u8; 32]
    requires leaf { q < 2 ^ levels height }
    requires whole { 32 * levels height ≤ length path.now }
    ensures value { result ≡ climb ident.now (hash_at path.now) (2 ^ levels height + q) leaf (levels height) }
    ensures cost { steps.new ≡ steps.old + levels height }
{
    let levels = height.levels();
    let mut r = (1 << levels) + q;
    let mut below = leaf;
    'path: for level in 0..levels {
        let beside = hash_at(path, level as usize);
        let above = r / 2;
        below = if r % 2 == 0 {
            parent(ident, above, &below, beside, steps)
        } else {
            parent(ident, above, beside, &below, steps)
        };
        r = above;
    }
    below
}

// A copy of hash i of a row of hashes.
fn hash_copy(row: &[u8], i: usize) -> [u8; 32]
    requires { 32 * i + 32 ≤ length row.now }
    ensures { result ≡ hash_at row.now i }
{
    let mut hash = [0u8; 32];
    hash.copy_from_slice(hash_at(row, i));
    hash
}

// Writes the ends of the chains, starting from the values in a signature.
fn put_ends<L: Ledger>(
    ident: &[u8; 16],
    q: u32,
    hash: &[u8; 32],
    values: &[u8],
    ots: Ots,
    ends: &mut Row,
    steps: &mut Steps<L>,
)
    requires { 32 * chains ots ≤ length values.now }
    ensures value { (i : ℕ) → i < chains ots → slice_index_or ends.new i [] ≡ end_at ident.now q ots hash.now values.now i }
    ensures cost { steps.new ≡ steps.old + longest_by_eights (steps_left ots hash.now) (chains ots) (last ots) }
{
    let last = ots.last() as u8;
    let mut legs = Legs {
        starts: [[0; 32]; 265],
        from: digits_of(hash, ots),
        counts: [0; 265],
    };
    'starts: for i in 0..ots.chains() {
        legs.starts[i] = hash_copy(values, i);
        legs.counts[i] = last - legs.from[i];
    }
    all_chains(ident, q, &legs, ots.chains(), last, ends, steps);
}

// Adds the first n hashes of a row to a message.
fn add_row(hasher: &mut Sha256, row: &Row, n: usize)
    requires { n ≤ 265 }
    ensures { (m : List ℕ) (f : ℕ → List ℕ) → Holds256 hasher.old m → ((i : ℕ) → i < n → slice_index_or row.now i [] ≡ f i)
        → Holds256 hasher.new (m ++ joined f n) }
{
    'hashes: for i in 0..n {
        hasher.update(row[i].as_slice());
    }
}

// The one-time key that is computed from a signature's values.
fn key_of_ends<L: Ledger>(
    ident: &[u8; 16],
    q: u32,
    hash: &[u8; 32],
    values: &[u8],
    ots: Ots,
    steps: &mut Steps<L>,
) -> [u8; 32]
    requires whole { 32 * chains ots ≤ length values.now }
    ensures value { result ≡ one_time_key ident.now q (joined (end_at ident.now q ots hash.now values.now) (chains ots)) }
    ensures cost { steps.new ≡ steps.old + (longest_by_eights (steps_left ots hash.now) (chains ots) (last ots) + 1) }
{
    let mut ends = [[0u8; 32]; 265];
    put_ends(ident, q, hash, values, ots, &mut ends, steps);
    let mut hasher = head(ident, q, D_PBLC, steps);
    add_row(&mut hasher, &ends, ots.chains());
    hasher.finalize()
}

/// The number of four bytes at a place, the highest byte first (RFC 8554, 3.1).
pub fn number_at(bytes: &[u8], at: usize) -> u32
    requires { at + 4 ≤ length bytes.now }
    ensures { result ≡ number_at bytes.now at }
{
    u32::from_be_bytes([bytes[at], bytes[at + 1], bytes[at + 2], bytes[at + 3]])
}

// The hash that is signed.
pub(crate) fn message_hash<L: Ledger>(
    ident: &[u8; 16],
    q: u32,
    randomizer: &[u8],
    message: &[u8],
    steps: &mut Steps<L>,
) -> [u8; 32]
    ensures value { result ≡ message_hash ident.now q randomizer.now message.now }
    ensures cost { steps.new ≡ steps.old + 1 }
{
    let mut hasher = head(ident, q, D_MESG, steps);
    hasher.update(randomizer);
    hasher.update(message);
    hasher.finalize()
}

// The root that is computed from a signature of leaf q on a message.
#[tactic(auto, unfolding(crate::specs::Signature::candidate))]
fn candidate<L: Ledger>(
    key: &PublicKey,
    q: u32,
    message: &[u8],
    sig: &[u8],
    steps: &mut Steps<L>,
) -> [u8; 32]
    requires leaf { q < 2 ^ levels key.now.params.height }
    requires length { length sig.now ≡ signature_len key.now.params }
    ensures value { result ≡ candidate key.now q message.now sig.now }
    ensures cost { steps.new ≡ steps.old + candidate_steps key.now q message.now sig.now }
{
    let Params { height, ots } = key.params;
    let hash = message_hash(&key.ident, q, &sig[8..40], message, steps);
    let one_time_key = key_of_ends(&key.ident, q, &hash, &sig[40..], ots, steps);
    let leaf = leaf_node(&key.ident, (1 << height.levels()) + q, &one_time_key, steps);
    top(
        &key.ident,
        q,
        leaf,
        &sig[44 + 32 * ots.chains()..],
        height,
        steps,
    )
}

// Whether a signature has the length and the types of the key and names a leaf.
fn is_well_formed(key: &PublicKey, sig: &[u8]) -> bool
    ensures { result ≡ is_well_formed key.now sig.now }
{
    let Params { height, ots } = key.params;
    if sig.len() != key.params.sig_len() {
        return false;
    }
    if number_at(sig, 4) != ots.number()
        || number_at(sig, 40 + 32 * ots.chains()) != height.number()
    {
        return false;
    }
    number_at(sig, 0) < 1 << height.levels()
}

/// Whether a signature is accepted on a message under a key (RFC 8554, 5.4.2).
///
/// It counts each hash: `steps_taken` of them, at most `Params::most`.
pub fn verify<L: Ledger>(key: &PublicKey, message: &[u8], sig: &[u8], steps: &mut Steps<L>) -> bool
    ensures test { result ≡ is_accepted key.now message.now sig.now }
    ensures exact { IsTrue result ↔ Accepts key.now message.now sig.now }
    ensures cost { steps.new ≡ steps.old + steps_taken key.now message.now sig.now }
    ensures bound { steps_taken key.now message.now sig.now ≤ most_steps key.now.params }
{
    if !is_well_formed(key, sig) {
        return false;
    }
    let root = candidate(key, number_at(sig, 0), message, sig, steps);
    root.as_slice() == key.root.as_slice()
}
