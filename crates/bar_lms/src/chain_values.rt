//! The chain values of one signature.

ghost use Rattle.std.specs.Prelude.{◌≡◌, ◌*◌, ◌≤◌, length, Some, None, IfOk, IfSome};
ghost use Rattle.bar_lms.specs.Params.{chains};

use crate::params::{Height, Ots, Params};
use crate::private::Private;
use bar_bytes::Room;
use std::alloc::{AllocError, Global};

/// The chain values of the signature of a hash under a leaf of a key, if any are kept.
#[derive(Drop)]
pub(crate) struct ChainValues {
    key: Private,
    leaf: u32,
    hash: [u8; 32],
    values: Room,
}

impl ChainValues {
    /// Room for the chain values of a key with these one-time signatures; none are kept yet.
    pub(crate) fn make(alloc: Global, ots: Ots) -> Result<ChainValues, AllocError>
        ensures { IfOk result (λ v. v.values ≡ record { size = 32 * chains ots; kept = None }) }
    {
        let values = Room::make(alloc, 32 * ots.chains())?;
        let params = Params {
            height: Height::H5,
            ots,
        };
        Ok(ChainValues {
            key: Private {
                params,
                ident: [0; 16],
                seed: [0; 32],
            },
            leaf: 0,
            hash: [0; 32],
            values,
        })
    }

    /// The values, if those that are kept are of this key, this leaf and this hash.
    pub(crate) fn get(&self, key: &Private, leaf: u32, hash: &[u8; 32]) -> Option<&[u8]>
        ensures { IfSome result (λ values. (self.now.key ≡ key.now) × (self.now.leaf ≡ leaf)
            × (self.now.hash ≡ hash.now) × (self.now.values.kept ≡ Some values.now)) }
    {
        if self.key != *key {
            return None;
        }
        if self.leaf == leaf && self.hash == *hash {
            self.values.kept()
        } else {
            None
        }
    }

    /// Keeps the values of a leaf and a hash under a key, in place of those that were kept.
    pub(crate) fn keep(&mut self, key: &Private, leaf: u32, hash: &[u8; 32], values: &[u8])
        requires { length values.now ≤ self.old.values.size }
        ensures { self.new ≡ record {
          key = key.now;
          leaf = leaf;
          hash = hash.now;
          values = record { size = self.old.values.size; kept = Some values.now };
        } }
    {
        self.key = key.copied();
        self.leaf = leaf;
        self.hash = *hash;
        self.values.keep(values);
    }
}
