//! Public keys.

ghost use Rattle.std.specs.Prelude.{◌≡◌, ◌<◌, ◌↔◌, true, Ok, Err, IfOk, length, take, drop};
ghost use Rattle.bar_lms.specs.Params.{NameNoTypes};

use crate::acceptance::number_at;
use crate::params::Params;
use std::marker::Model;

/// A public key (RFC 8554, 5.3): its types, its name of 16 bytes and the root of its tree.
#[derive(Drop)]
pub struct PublicKey {
    pub(crate) params: Params,
    pub(crate) ident: [u8; 16],
    pub(crate) root: [u8; 32],
}

/// Why bytes aren't a public key: fewer than 56 bytes, more, or numbers that name no types.
#[derive(Clone, Copy, Debug, PartialEq, Eq)]
pub enum KeyFault {
    Short,
    Long,
    BadType,
}

impl Model for PublicKey {
    ghost use Rattle.bar_lms.specs.Signature.{Public};

    ghost Value = { Public };

    ghost view = { λ k. record { params = k.params; ident = k.ident; root = k.root } };
}

impl PublicKey {
    ghost use Rattle.bar_lms.specs.Signature.{Public, IsPublic, key_bytes, number_at};
    ghost use Rattle.bar_lms.specs.Acceptance.{is_key_of, key_at};

    /// The key that these 56 bytes encode.
    pub fn read(bytes: &[u8]) -> Result<PublicKey, KeyFault>
        ensures short { (result ≡ Err KeyFault.Short) ↔ (length bytes.now < 56) }
        ensures long { (result ≡ Err KeyFault.Long) ↔ (56 < length bytes.now) }
        ensures bad_type { (result ≡ Err KeyFault.BadType) ↔
            ((length bytes.now ≡ 56) × NameNoTypes (number_at bytes.now 0) (number_at bytes.now 4)) }

        // The bytes encode the key that is read, and a key that they encode is read.
        ensures found { IfOk result (λ k. bytes.now ≡ key_bytes k) }
        ensures only { (k : Public) → IsPublic k → bytes.now ≡ key_bytes k → result ≡ Ok k }

        // The same by the test for a key of given types.
        ensures types { IfOk result (λ k. is_key_of k.params bytes.now ≡ true) }
        ensures of_types { (p : Params) → is_key_of p bytes.now ≡ true → result ≡ Ok (key_at p bytes.now) }
    {
        if bytes.len() < 56 {
            return Err(KeyFault::Short);
        }
        if bytes.len() > 56 {
            return Err(KeyFault::Long);
        }
        match Params::of_types(number_at(bytes, 0), number_at(bytes, 4)) {
            Ok(params) => Ok(key_of(params, bytes)),
            Err(_) => Err(KeyFault::BadType),
        }
    }

    /// The types of the key.
    pub fn params(&self) -> Params
        ensures { result ≡ self.now.params }
    {
        self.params
    }
}

// The key of these types whose name and root are in the bytes.
fn key_of(params: Params, bytes: &[u8]) -> PublicKey
    requires { length bytes.now ≡ 56 }
    ensures { result ≡ record { params = params; ident = take 16 (drop 8 bytes.now); root = drop 24 bytes.now } }
{
    let mut ident = [0u8; 16];
    ident.copy_from_slice(&bytes[8..24]);
    let mut root = [0u8; 32];
    root.copy_from_slice(&bytes[24..]);
    PublicKey {
        params,
        ident,
        root,
    }
}
