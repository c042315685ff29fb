//! The chain values of signatures that are remembered.

ghost use Rattle.std.specs.Prelude.{◌≡◌, ◌+◌, ◌*◌, ◌≤◌, ◌++◌, length, take, drop, IfOk, IfSome};
ghost use Rattle.bar_lms.specs.Params.{chains};
ghost use Rattle.bar_lms.specs.Code.Remembered.{chain_values};

use crate::bytes::put;
use crate::chain_values::ChainValues;
use crate::params::Ots;
use crate::private::Private;
use crate::signing::put_values;
use bar_bytes::Steps;
use std::alloc::{AllocError, Global};
use std::marker::Model;
use std::sync::ledger::Ledger;

/// Places for the chain values of signatures, under keys with the same one-time signatures. A number selects the place with this number
/// modulo the count of places.
#[derive(Drop)]
pub struct Remembered {
    ots: Ots,
    places: Vec<ChainValues>,
}

impl Model for Remembered {
    ghost use Rattle.std.specs.Prelude.{All};
    ghost use Rattle.bar_lms.specs.declared.params.Ots.{Ots};
    ghost use Rattle.bar_lms.specs.Code.Remembered.{AreValuesOf};

    ghost Value = { Ots };

    ghost view = { λ r. r.ots };

    ghost invariant = { λ r. All (AreValuesOf r.ots) r.places.items };
}

impl Remembered {
    /// A number of places, in which nothing is kept. All memory is allocated here.
    pub fn make(alloc: Global, ots: Ots, places: u16) -> Result<Remembered, AllocError>
        ensures { IfOk result (λ r. r ≡ ots) }
    {
        let mut all = Vec::with_capacity(alloc, places as usize)?;
        'places: for _ in 0..places {
            let place = ChainValues::make(alloc, ots)?;
            all.push(place)?;
        }
        Ok(Remembered { ots, places: all })
    }

    // The chain values of a leaf and a hash under a key, if the place of a number keeps them.
    fn get(&self, number: u32, key: &Private, q: u32, hash: &[u8; 32]) -> Option<&[u8]>
        ensures { IfSome result (λ values. values.now ≡ chain_values key.now q hash.now) }
    {
        let place = (number as usize).checked_rem(self.places.len())?;
        self.places[place].get(key, q, hash)
    }

    // Keeps the chain values of a leaf and a hash at the place of a number, if there is one and the key has these one-time signatures.
    fn keep(&mut self, number: u32, key: &Private, q: u32, hash: &[u8; 32], values: &[u8])
        requires { values.now ≡ chain_values key.now q hash.now }
        ensures { self.new ≡ self.old }
    {
        if self.ots != key.params.ots {
            return;
        }
        if let Some(place) = (number as usize).checked_rem(self.places.len()) {
            self.places[place].keep(key, q, hash, values);
        }
    }

    /// Writes the values of the chains, from byte 40 on: those that the place of a number keeps, or else computed ones, which it then
    /// keeps.
    pub(crate) fn put_values<L: Ledger>(
        &mut self,
        number: u32,
        key: &Private,
        q: u32,
        hash: &[u8; 32],
        out: &mut [u8],
        steps: &mut Steps<L>,
    )
        requires { 40 + 32 * chains key.now.params.ots ≤ length out.old }
        ensures grown { take (40 + 32 * chains key.now.params.ots) out.new ≡ take 40 out.old ++ chain_values key.now q hash.now }
        ensures rest { drop (40 + 32 * chains key.now.params.ots) out.new ≡ drop (40 + 32 * chains key.now.params.ots) out.old }
    {
        if let Some(values) = self.get(number, key, q, hash) {
            put(out, 40, values);
            return;
        }
        put_values(key, q, hash, out, steps);
        self.keep(
            number,
            key,
            q,
            hash,
            &out[40..40 + 32 * key.params.ots.chains()],
        );
    }
}
