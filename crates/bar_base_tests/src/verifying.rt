//! Verification by any verifier.
ghost use Rattle.std.specs.Prelude.{◌≡◌, ◌<◌};

use bar_bytes::Steps;
use bar_seal::Verifier;
use std::marker::Brand;
use std::sync::ledger::{Blank, Ledger};

fn is_counted<V: Verifier, L: Ledger>(
    verifier: &V,
    key: &[u8],
    message: &[u8],
    sig: &[u8],
    blank: Blank,
) -> bool
    requires name { blank.name ≡ L.name }
    requires parts { blank.parts ≡ L.parts }
    requires some { 0 < L.parts }
{
    verifier.accepts(key, message, sig, &mut Steps::<L>::new(blank))
}

/// Whether a verifier accepts a signature.
pub fn accepts<V: Verifier>(verifier: &V, key: &[u8], message: &[u8], sig: &[u8]) -> bool {
    is_counted::<V, Brand>(verifier, key, message, sig, Blank::new(1))
}
