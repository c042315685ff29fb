//! Trees of 32 leaves, whose public keys are signed by upper leaves.

ghost use Rattle.std.specs.Prelude.{◌≡◌, IsTrue, ◌+◌, ◌*◌, ◌≤◌, ◌<◌, ◌++◌, length, take, drop};
ghost use Rattle.bar_lms.specs.declared.params.Height.TheVariants.{H5};
ghost use Rattle.bar_lms.specs.Params.{signature_len};
ghost use Rattle.bar_lms.specs.Tree.{private_by};
ghost use Rattle.bar_lms.specs.Signature.{key_bytes, public_of, signature};

use crate::writing::put_signature;
use bar_lms::{Params, Place, fill_tree, public_key};
use std::marker::Model;

/// The places for the nodes of a tree of 32 leaves; place 0 has none.
const PLACES: usize = 64;

/// A tree of 32 leaves, in a fixed array.
#[derive(Drop)]
pub struct LowerTree {
    params: Params,
    seed: [u8; 32],
    ident: [u8; 16],
    nodes: [[u8; 32]; PLACES],
}

impl Model for LowerTree {
    ghost use Rattle.std.specs.Prelude.{◌≡◌, length};
    ghost use Rattle.bar_lms.specs.declared.params.Height.TheVariants.{H5};
    ghost use Rattle.bar_lms.specs.declared.private.Private.{Private};
    ghost use Rattle.bar_lms.specs.Tree.{HoldsTree, private_by};

    ghost Value = { Private };

    ghost view = { λ t. private_by t.params t.seed t.ident };

    ghost invariant = { λ t. (t.params.height ≡ H5) × HoldsTree (private_by t.params t.seed t.ident) t.nodes
        × (length t.nodes ≡ 64) };
}

impl LowerTree {
    /// The tree of a seed and a name.
    pub fn make(params: Params, seed: [u8; 32], ident: [u8; 16]) -> LowerTree
        requires { params.height ≡ H5 }
        ensures { result ≡ private_by params seed ident }
    {
        let mut nodes = [[0u8; 32]; PLACES];
        fill_tree(params, &seed, &ident, &mut nodes);
        LowerTree {
            params,
            seed,
            ident,
            nodes,
        }
    }

    /// Whether it is the tree of a seed and a name.
    fn is_of(&self, params: Params, seed: &[u8; 32], ident: &[u8; 16]) -> bool
        ensures { IsTrue result → self.now ≡ private_by params seed.now ident.now }
    {
        self.params == params && self.seed == *seed && self.ident == *ident
    }

    /// Its public key.
    pub fn key(&self) -> [u8; 56]
        ensures { result ≡ key_bytes (public_of self.now) }
    {
        let root = self.nodes[1];
        public_key(self.params, &self.ident, &root)
    }

    /// A copy of the tree.
    pub fn copied(&self) -> LowerTree
        ensures { result ≡ self.now }
    {
        LowerTree {
            params: self.params,
            seed: self.seed,
            ident: self.ident,
            nodes: self.nodes,
        }
    }

    /// Turns into the tree of a seed and a name, which is computed unless it is this one already.
    pub fn turn_to(&mut self, params: Params, seed: &[u8; 32], ident: &[u8; 16])
        requires { params.height ≡ H5 }
        ensures { self.new ≡ private_by params seed.now ident.now }
    {
        if !self.is_of(params, seed, ident) {
            *self = LowerTree::make(params, *seed, *ident);
        }
    }

    /// Writes the signature of a message under a leaf from an offset on, by the chain values that a place remembers.
    pub fn put(
        &self,
        leaf: u32,
        randomizer: &[u8; 32],
        message: &[u8],
        out: &mut [u8],
        at: usize,
        place: Place<'_>,
    )
        requires leaf { leaf < 32 }
        requires room { at + signature_len self.now.params ≤ length out.old }
        ensures grown { take (at + signature_len self.now.params) out.new
            ≡ take at out.old ++ signature self.now leaf randomizer.now message.now }
        ensures rest { drop (at + signature_len self.now.params) out.new ≡ drop (at + signature_len self.now.params) out.old }
    {
        put_signature(
            self.params,
            &self.seed,
            &self.ident,
            &self.nodes,
            leaf,
            randomizer,
            message,
            out,
            at,
            place,
        );
    }
}
