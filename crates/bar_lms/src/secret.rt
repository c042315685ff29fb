//! Secret keys.

ghost use Rattle.std.specs.Prelude.{◌≡◌, ◌*◌, ◌^◌, ◌≤◌, ◌<◌, true, IfOk, length, take, drop};
ghost use Rattle.bar_lms.specs.Params.{levels, signature_len};
ghost use Rattle.bar_lms.specs.Signature.{public_of};
ghost use Rattle.bar_lms.specs.Acceptance.{Accepts, is_accepted_under, is_key_of};

use crate::bytes::put;
use crate::params::Params;
use crate::place::Place;
use crate::private::Private;
use crate::remembered::Remembered;
use crate::signing::sign_from;
use crate::tree::fill;
use bar_bytes::{Tagged, tagged_hash};
use std::alloc::{AllocError, Global};
use std::cell::RefCell;
use std::marker::{Brand, Model};
use std::sync::ledger::Blank;

/// A secret key, with its tree and the chain values that it remembers of its signatures.
#[derive(Drop)]
pub struct SecretKey {
    key: Private,
    nodes: Vec<[u8; 32]>,
    id: [u8; 8],
    secret: [u8; 32],
    remembered: RefCell<Remembered>,
}

impl Model for SecretKey {
    ghost use Rattle.std.specs.Prelude.{◌≡◌, ◌*◌, ◌^◌, length};
    ghost use Rattle.bar_lms.specs.Params.{levels};
    ghost use Rattle.bar_lms.specs.Tree.{HoldsTree};
    ghost use Rattle.bar_lms.specs.Secret.{Secret, private_of};

    ghost Value = { Secret };

    ghost view = { λ s. record { params = s.key.params; id = s.id; secret = s.secret } };

    ghost invariant = { λ s. (s.key ≡ private_of (record { params = s.key.params; id = s.id; secret = s.secret }))
        × HoldsTree s.key s.nodes.items × (length s.nodes.items ≡ 2 * 2 ^ levels s.key.params.height) };
}

impl SecretKey {
    ghost use Rattle.bar_lms.specs.Secret.{private_of, public_key, signed};

    /// The key of a party's secret in the session with this id.
    ///
    /// Its name and its seed are tagged hashes of the secret, and its whole tree is computed here.
    pub fn make(
        alloc: Global,
        params: Params,
        id: &[u8; 8],
        secret: &[u8; 32],
    ) -> Result<SecretKey, AllocError>
        ensures { IfOk result (λ s. s ≡ record { params = params; id = id.now; secret = secret.now }) }
    {
        let seed = tagged_hash(b"SED1", id, secret);
        let name = tagged_hash(b"IDN1", id, secret);
        let mut ident = [0u8; 16];
        ident.copy_from_slice(&name[..16]);
        let key = Private {
            params,
            ident,
            seed,
        };
        let mut nodes = vec![in alloc; [0u8; 32]; 2 * params.height.leaves()]?;
        fill(&key, &mut nodes);
        let remembered = RefCell::new(Remembered::make(alloc, params.ots, 0)?);
        Ok(SecretKey {
            key,
            nodes,
            id: *id,
            secret: *secret,
            remembered,
        })
    }

    /// Remembers the chain values of the last signature of each of several consecutive leaves, in place of what was remembered.
    ///
    /// The same message under the same leaf is then signed again without a step of a chain. All memory is allocated here.
    pub fn remember(&mut self, alloc: Global, leaves: u16) -> Result<(), AllocError>
        ensures { self.new ≡ self.old }
    {
        let remembered = Remembered::make(alloc, self.key.params.ots, leaves)?;
        self.remembered = RefCell::new(remembered);
        Ok(())
    }

    /// The types of the key.
    pub fn params(&self) -> Params
        ensures { result ≡ self.now.params }
    {
        self.key.params
    }

    /// The public key as bytes (RFC 8554, 5.3).
    #[tactic(auto, unfolding(crate::specs::Secret::public_key))]
    pub fn public(&self) -> [u8; 56]
        ensures value { result ≡ public_key self.now }
        ensures types { is_key_of self.now.params result ≡ true }
    {
        let mut out = [0u8; 56];
        put(&mut out, 0, &self.key.params.height.number().to_be_bytes());
        put(&mut out, 4, &self.key.params.ots.number().to_be_bytes());
        put(&mut out, 8, &self.key.ident);
        put(&mut out, 24, &self.nodes[1]);
        out
    }

    /// Writes the signature of a message under a leaf (RFC 8554, 5.4.1), and returns its length.
    ///
    /// The randomizer is a tagged hash of the leaf and the secret, so the same message under the same leaf gives the same bytes.
    #[tactic(auto, unfolding(crate::specs::Secret::signed))]
    pub fn sign(&self, leaf: u32, message: &[u8], out: &mut [u8]) -> usize
        requires leaf { leaf < 2 ^ levels self.now.params.height }
        requires room { signature_len self.now.params ≤ length out.old }
        ensures length { result ≡ signature_len self.now.params }
        ensures value { take result out.new ≡ signed self.now leaf message.now }
        ensures rest { drop result out.new ≡ drop result out.old }
        ensures accepted { Accepts (public_of (private_of self.now)) message.now (take result out.new) }
        ensures accepted_under { is_accepted_under self.now.params (public_key self.now) message.now (take result out.new) ≡ true }
    {
        let mut hash = Tagged::new(b"RND1", &self.id);
        hash.add(&leaf.to_be_bytes());
        hash.add(&self.secret);
        let randomizer = hash.finish();
        sign_from::<Brand>(
            &self.key,
            &self.nodes,
            Some(Place {
                remembered: &self.remembered,
                number: leaf,
            }),
            leaf,
            &randomizer,
            message,
            out,
            Blank::new(1),
        )
    }
}
