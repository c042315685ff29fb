//! Tests of keys and signatures against values of other programs.

mod vectors;

ghost use Rattle.std.specs.Prelude.{◌≡◌, ◌<◌};

use crate::hex_bytes::bytes;
use bar_bytes::Steps;
use bar_lms::{Height, Ots, Params, PublicKey, SecretKey, fill_tree, sign_tree, verify};
use sha2::{Digest, Sha256};
use std::alloc::Global;
use std::marker::Brand;
use std::process::Abort;
use std::sync::ledger::{Blank, Ledger};
use std::test::Fail;
use vectors::{OF_WIDTH_4, OF_WIDTH_8, Vector};

// 0, 1, .., 31
const SECRET: [u8; 32] = [
    0, 1, 2, 3, 4, 5, 6, 7, 8, 9, 10, 11, 12, 13, 14, 15, 16, 17, 18, 19, 20, 21, 22, 23, 24, 25,
    26, 27, 28, 29, 30, 31,
];

fn is_counted<L: Ledger>(key: &PublicKey, message: &[u8], sig: &[u8], blank: Blank) -> bool
    requires name { blank.name ≡ L.name }
    requires parts { blank.parts ≡ L.parts }
    requires some { 0 < L.parts }
{
    verify(key, message, sig, &mut Steps::<L>::new(blank))
}

/// Whether a signature is accepted.
fn accepts(key: &PublicKey, message: &[u8], sig: &[u8]) -> bool {
    is_counted::<Brand>(key, message, sig, Blank::new(1))
}

/// Checks that a signature isn't accepted if a bit of this byte is changed.
fn check_changed(
    rt: &impl Abort,
    key: &PublicKey,
    message: &[u8],
    signature: &mut [u8],
    place: usize,
) {
    assert!(rt; place < signature.len());
    signature[place] ^= 1;
    assert!(rt; !accepts(key, message, signature), "{place}");
    signature[place] ^= 1;
}

/// Checks that a signature is accepted under its key, and isn't accepted if one of its bits is changed.
fn check_signature(rt: &impl Abort, key: &PublicKey, message: &[u8], signature: &mut [u8]) {
    assert!(rt; accepts(key, message, signature));
    assert!(rt; !accepts(key, b"another message", signature));
    for place in [3, 7, 8, 40, 1000, 1100, 1291] {
        check_changed(rt, key, message, signature, place);
    }
}

/// Checks that a signature from another implementation is accepted.
fn check_vector(rt: &impl Abort, alloc: Global, vector: Vector) -> Result<(), Fail> {
    let key = PublicKey::read(&hex::decode(alloc, vector.key)?)?;
    let message = hex::decode(alloc, vector.message)?;
    let mut signature = hex::decode(alloc, vector.signature)?;
    let params = key.params();
    assert_eq!(rt; (params.lms(), params.ots()), (vector.lms, vector.ots));
    assert_eq!(rt; params.sig_len(), signature.len());
    check_signature(rt, &key, &message, &mut signature);
    Ok(())
}

#[test]
fn others_signatures_of_width_8_are_accepted(rt: HostRuntime) -> Result<(), Fail> {
    check_vector(&rt, rt.alloc(), OF_WIDTH_8)
}

#[test]
fn others_signatures_of_width_4_are_accepted(rt: HostRuntime) -> Result<(), Fail> {
    check_vector(&rt, rt.alloc(), OF_WIDTH_4)
}

/// Checks that the signature of a message is made byte for byte.
fn check_signed(
    rt: &impl Abort,
    ident: &[u8; 16],
    seed: &[u8; 32],
    message: &[u8],
    wanted: &[u8; 1292],
) {
    let params = Params {
        height: Height::H5,
        ots: Ots::W8,
    };
    let mut nodes = [[0u8; 32]; 64];
    fill_tree(params, seed, ident, &mut nodes);
    let mut randomizer = [0u8; 32];
    randomizer.copy_from_slice(&wanted[8..40]);
    let mut out = [0u8; 1292];
    let len = sign_tree(
        params,
        seed,
        ident,
        &nodes,
        13,
        &randomizer,
        message,
        &mut out,
    );
    assert_eq!(rt; len, 1292);
    assert_eq!(rt; out, *wanted);
}

#[test]
fn signs_byte_for_byte_as_others_do(rt: HostRuntime) -> Result<(), Fail> {
    let vector = OF_WIDTH_8;
    let (ident, seed) = (bytes::<16>(vector.ident)?, bytes::<32>(vector.seed)?);
    let (message, wanted) = (
        bytes::<13>(vector.message)?,
        bytes::<1292>(vector.signature)?,
    );
    check_signed(&rt, &ident, &seed, &message, &wanted);
    Ok(())
}

// The public key and the hash of the signature come from a Python program written from RFC 8554 alone.
#[test]
fn a_secret_gives_its_key_and_signatures(rt: HostRuntime) -> Result<(), Fail> {
    let key = bytes::<56>(
        "0000000500000003e8cda7f1073138c16645781f8e909fcda25d32da6e01b759d6b76a8e281924e0\
        c1bf4edd6366a17e16b8d60ab872b388",
    )?;
    let hash = bytes::<32>("f3f5807db788a3bf0e999c7176b2ac5b4e93ad0bbdc5ff104f5732063f2670e5")?;
    let read = PublicKey::read(&key)?;
    let params = Params {
        height: Height::H5,
        ots: Ots::W4,
    };
    let id = [0x00, 0x11, 0x22, 0x33, 0x44, 0x55, 0x66, 0x77];
    let secret = SecretKey::make(rt.alloc(), params, &id, &SECRET)?;
    assert_eq!(rt; secret.params(), params);
    assert_eq!(rt; secret.public(), key);
    let mut out = [0u8; 2348];
    let len = secret.sign(31, b"a message", &mut out);
    assert_eq!(rt; len, 2348);
    assert_eq!(rt; Sha256::digest(out.as_slice()), hash);
    assert!(rt; accepts(&read, b"a message", &out));
    assert!(rt; !accepts(&read, b"b message", &out));
    Ok(())
}
