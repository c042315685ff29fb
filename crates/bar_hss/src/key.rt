//! Secret keys.

ghost use Rattle.std.specs.Prelude.{◌≡◌, ◌+◌, ◌*◌, ◌/◌, ◌%◌, ◌^◌, ◌≤◌, ◌<◌, ◌++◌, IfOk, length, take, drop};
ghost use Rattle.std.specs.Int.{w32, to_be_bytes};
ghost use Rattle.bar_bytes.specs.Tag.{tagged};
ghost use Rattle.bar_lms.specs.Params.{levels, signature_len};
ghost use Rattle.bar_lms.specs.Signature.{key_bytes, public_of};
ghost use Rattle.bar_lms.specs.Hss.{hss_leaves, hss_public_key, hss_signature_len, hss_signed, leaves_of, lower_key, lower_of, upper_of, upper_signature};
ghost use Rattle.bar_lms.specs.Tree.{private_by};
ghost use Rattle.bar_hss.specs.Pairs.{IsPair};

use crate::lower::LowerTree;
use crate::trees::Trees;
use crate::writing::{put_key, put_number, put_signature};
use bar_bytes::{Tagged, tagged_hash};
use bar_lms::{Params, Place, Remembered, fill_tree, public_key};
use std::alloc::{AllocError, Global};
use std::cell::RefCell;
use std::marker::Model;

/// A secret key of two levels, with its upper tree, and the lower trees and chain values that it remembers.
#[derive(Drop)]
pub struct HssKey {
    top: Params,
    low: Params,
    id: [u8; 8],
    secret: [u8; 32],
    seed: [u8; 32],
    ident: [u8; 16],
    nodes: Vec<[u8; 32]>,
    trees: Trees,
    upper: RefCell<Remembered>,
    lower: RefCell<Remembered>,
}

impl Model for HssKey {
    ghost use Rattle.std.specs.Prelude.{◌≡◌, ◌*◌, ◌^◌, length};
    ghost use Rattle.bar_lms.specs.Params.{levels};
    ghost use Rattle.bar_lms.specs.Tree.{HoldsTree, private_by};
    ghost use Rattle.bar_lms.specs.Hss.{HssSecret, upper_of};
    ghost use Rattle.bar_hss.specs.Pairs.{IsPair};

    ghost Value = { HssSecret };

    ghost view = { λ s. record { top = s.top; low = s.low; id = s.id; secret = s.secret } };

    ghost invariant = { λ s. IsPair s.top s.low
        × (private_by s.top s.seed s.ident ≡ upper_of (record { top = s.top; low = s.low; id = s.id; secret = s.secret }))
        × HoldsTree (private_by s.top s.seed s.ident) s.nodes.items
        × (length s.nodes.items ≡ 2 * 2 ^ levels s.top.height) };
}

// The tagged hash of a number and a secret.
fn tagged_number(tag: &[u8; 4], id: &[u8; 8], number: u32, secret: &[u8; 32]) -> [u8; 32]
    ensures { result ≡ tagged tag.now id.now (to_be_bytes w32 number ++ secret.now) }
{
    let mut hash = Tagged::new(tag, id);
    hash.add(&number.to_be_bytes());
    hash.add(secret);
    hash.finish()
}

// The first 16 bytes of a hash.
fn name_of(hash: &[u8; 32]) -> [u8; 16]
    ensures { result ≡ take 16 hash.now }
{
    let mut name = [0u8; 16];
    name.copy_from_slice(&hash[..16]);
    name
}

impl HssKey {
    ghost use Rattle.bar_lms.specs.Hss.{hss_public_key, hss_signed, lower_key};

    /// The key of a party's secret in the session with this id: an upper tree of the types `top` over trees of the types `low`.
    ///
    /// The upper tree is computed here. A lower tree is computed each time it signs, unless it is remembered.
    pub fn make(
        alloc: Global,
        top: Params,
        low: Params,
        id: &[u8; 8],
        secret: &[u8; 32],
    ) -> Result<HssKey, AllocError>
        requires { IsPair top low }
        ensures { IfOk result (λ s. s ≡ record { top = top; low = low; id = id.now; secret = secret.now }) }
    {
        let seed = tagged_hash(b"SED1", id, secret);
        let ident = name_of(&tagged_hash(b"IDN1", id, secret));
        let mut nodes = vec![in alloc; [0u8; 32]; 2 * top.height.leaves()]?;
        fill_tree(top, &seed, &ident, &mut nodes);
        let trees = Trees::none(alloc);
        let upper = RefCell::new(Remembered::make(alloc, top.ots, 0)?);
        let lower = RefCell::new(Remembered::make(alloc, low.ots, 0)?);
        Ok(HssKey {
            top,
            low,
            id: *id,
            secret: *secret,
            seed,
            ident,
            nodes,
            trees,
            upper,
            lower,
        })
    }

    /// Remembers the trees of several consecutive leaves and the chain values of their last signatures, in place of what was remembered.
    ///
    /// A message under one of these leaves is then signed without computing a lower tree, and the same message again without a step of a
    /// chain. All memory is allocated here.
    pub fn remember(&mut self, alloc: Global, leaves: u16) -> Result<(), AllocError>
        ensures { self.new ≡ self.old }
    {
        let count = leaves / 32 + 2;
        let trees = Trees::make(alloc, &self.lower_tree(0), count)?;
        let upper = Remembered::make(alloc, self.top.ots, count)?;
        let lower = Remembered::make(alloc, self.low.ots, leaves)?;
        self.trees = trees;
        self.upper = RefCell::new(upper);
        self.lower = RefCell::new(lower);
        Ok(())
    }

    /// The types of the upper tree.
    pub fn top(&self) -> Params
        ensures { result ≡ self.now.top }
    {
        self.top
    }

    /// The types of the lower trees.
    pub fn low(&self) -> Params
        ensures types { result ≡ self.now.low }
        ensures pair { IsPair self.now.top result }
    {
        self.low
    }

    /// How many leaves sign messages.
    pub fn leaves(&self) -> u32
        ensures { result ≡ hss_leaves self.now.top self.now.low }
    {
        32 * self.top.height.leaves() as u32
    }

    /// The public key as bytes (RFC 8554, 6.1).
    pub fn public(&self) -> [u8; 60]
        ensures { result ≡ hss_public_key self.now }
    {
        let mut out = [0u8; 60];
        put_number(&mut out, 2);
        put_key(&mut out, 4, &self.upper_key());
        out
    }

    // The public key of the upper tree.
    fn upper_key(&self) -> [u8; 56]
        ensures { result ≡ key_bytes (public_of (upper_of self.now)) }
    {
        let root = self.nodes[1];
        public_key(self.top, &self.ident, &root)
    }

    // Writes the signature of a lower tree's public key, from offset `at` on.
    fn put_upper(&self, j: u32, key: &[u8; 56], out: &mut [u8], at: usize)
        requires leaf { j < leaves_of self.now.top }
        requires key { key.now ≡ lower_key self.now j }
        requires room { at + signature_len self.now.top ≤ length out.old }
        ensures grown { take (at + signature_len self.now.top) out.new ≡ take at out.old ++ upper_signature self.now j }
        ensures rest { drop (at + signature_len self.now.top) out.new ≡ drop (at + signature_len self.now.top) out.old }
    {
        let randomizer = tagged_number(b"RND2", &self.id, j, &self.secret);
        let place = Place {
            remembered: &self.upper,
            number: j,
        };
        put_signature(
            self.top,
            &self.seed,
            &self.ident,
            &self.nodes,
            j,
            &randomizer,
            key,
            out,
            at,
            place,
        );
    }

    // Writes the number of signed public keys, and the public key of a lower tree after its signature.
    fn put_front(&self, j: u32, key: &[u8; 56], out: &mut [u8])
        requires leaf { j < leaves_of self.now.top }
        requires key { key.now ≡ lower_key self.now j }
        requires room { 60 + signature_len self.now.top ≤ length out.old }
        ensures front { take (60 + signature_len self.now.top) out.new
            ≡ to_be_bytes w32 1 ++ upper_signature self.now j ++ lower_key self.now j }
        ensures rest { drop (60 + signature_len self.now.top) out.new ≡ drop (60 + signature_len self.now.top) out.old }
    {
        put_number(out, 1);
        self.put_upper(j, key, out, 4);
        put_key(out, 4 + self.top.sig_len(), key);
    }

    // The upper leaf over a leaf.
    fn upper_leaf(&self, leaf: u32) -> u32
        requires { leaf < hss_leaves self.now.top self.now.low }
        ensures value { result ≡ leaf / leaves_of self.now.low }
        ensures below { result < leaves_of self.now.top }
        ensures lower { leaf % 32 ≡ leaf % leaves_of self.now.low }
        ensures few { leaves_of self.now.low ≡ 32 }
    {
        let _ = &self.low;
        leaf / 32
    }

    // Writes the signature of a message under a leaf of the given tree.
    fn sign_with(&self, tree: &LowerTree, leaf: u32, message: &[u8], out: &mut [u8]) -> usize
        requires leaf { leaf < hss_leaves self.now.top self.now.low }
        requires tree { tree.now ≡ lower_of self.now (leaf / leaves_of self.now.low) }
        requires room { hss_signature_len self.now.top self.now.low ≤ length out.old }
        ensures length { result ≡ hss_signature_len self.now.top self.now.low }
        ensures value { take result out.new ≡ hss_signed self.now leaf message.now }
        ensures rest { drop result out.new ≡ drop result out.old }
    {
        let j = self.upper_leaf(leaf);
        self.put_front(j, &tree.key(), out);
        let at = 60 + self.top.sig_len();
        let randomizer = tagged_number(b"RND1", &self.id, leaf, &self.secret);
        let place = Place {
            remembered: &self.lower,
            number: leaf,
        };
        tree.put(leaf % 32, &randomizer, message, out, at, place);
        at + self.low.sig_len()
    }

    /// Writes the signature of a message under a leaf (RFC 8554, 6.2), and returns its length.
    pub fn sign(&self, leaf: u32, message: &[u8], out: &mut [u8]) -> usize
        requires leaf { leaf < hss_leaves self.now.top self.now.low }
        requires room { hss_signature_len self.now.top self.now.low ≤ length out.old }
        ensures length { result ≡ hss_signature_len self.now.top self.now.low }
        ensures value { take result out.new ≡ hss_signed self.now leaf message.now }
        ensures rest { drop result out.new ≡ drop result out.old }
    {
        let j = self.upper_leaf(leaf);
        let (seed, ident) = self.names_of(j);
        if let Some(cell) = self.trees.get(j) {
            if let Ok(mut tree) = cell.try_borrow_mut() {
                tree.turn_to(self.low, &seed, &ident);
                return self.sign_with(&tree, leaf, message, out);
            }
        }
        self.sign_with(&self.lower_tree(j), leaf, message, out)
    }

    // The seed and the name of the tree below an upper leaf.
    fn names_of(&self, j: u32) -> ([u8; 32], [u8; 16])
        ensures { private_by self.now.low result.0 result.1 ≡ lower_of self.now j }
    {
        let seed = tagged_number(b"SED2", &self.id, j, &self.secret);
        let ident = name_of(&tagged_number(b"IDN2", &self.id, j, &self.secret));
        (seed, ident)
    }

    // The tree below an upper leaf.
    fn lower_tree(&self, j: u32) -> LowerTree
        ensures { result ≡ lower_of self.now j }
    {
        let (seed, ident) = self.names_of(j);
        LowerTree::make(self.low, seed, ident)
    }
}
