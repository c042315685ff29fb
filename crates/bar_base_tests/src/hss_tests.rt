//! Tests of signatures of two levels: test vectors from other implementations, and each public call once.

mod vectors;

use crate::hex_bytes::bytes;
use crate::verifying::accepts;
use bar_hss::{HssKey, HssScheme, HssVerifier, SessionScheme, SessionVerifier};
use bar_lms::{Height, Ots, Params};
use bar_seal::{Scheme, Verifier};
use sha2::{Digest, Sha256};
use std::alloc::{AllocError, Global};
use std::process::Abort;
use std::test::Fail;
use vectors::OF_WIDTH_8;

const LOW: Params = Params {
    height: Height::H5,
    ots: Ots::W8,
};

const ID: [u8; 8] = [0xce, 0xc7, 0x97, 0x85, 0x07, 0xff, 0x0b, 0xdc];

/// The leaf that a signature names.
fn leaf_of<V: Verifier>(rt: &impl Abort, verifier: &V, sig: &[u8]) -> u32 {
    let len = verifier.sig_len();
    assert!(rt; sig.len() == len);
    verifier.leaf_in(sig)
}

/// Checks that a signature isn't accepted if a bit of this byte is changed.
fn check_changed<V: Verifier>(
    rt: &impl Abort,
    verifier: &V,
    key: &[u8],
    message: &[u8],
    sig: &mut [u8],
    place: usize,
) {
    assert!(rt; place < sig.len());
    sig[place] ^= 1;
    assert!(rt; !accepts(verifier, key, message, sig), "{place}");
    sig[place] ^= 1;
}

/// Bytes in each part of a signature: the number of keys; in both parts the leaf, the randomizer and the path; and the key between them.
const PLACES: [usize; 9] = [3, 7, 12, 1_295, 1_300, 1_320, 1_355, 1_360, 2_643];

#[test]
fn others_signatures_are_accepted(rt: HostRuntime) -> Result<(), Fail> {
    let vector = OF_WIDTH_8;
    let (key, message) = (
        bytes::<60>(vector.key)?,
        hex::decode(rt.alloc(), vector.message)?,
    );
    let mut sig = bytes::<2644>(vector.signature)?;
    let verifier = SessionVerifier::Double(HssVerifier::new(LOW, LOW));
    assert!(rt; accepts(&verifier, &key, &message, &sig));
    assert_eq!(rt; leaf_of(&rt, &verifier, &sig), vector.leaf);
    assert!(rt; !accepts(&verifier, &key, b"another message", &sig));
    for place in PLACES {
        check_changed(&rt, &verifier, &key, &message, &mut sig, place);
    }
    Ok(())
}

/// A key of two levels.
fn key_of(alloc: Global, secret: &[u8; 32]) -> Result<HssKey, AllocError> {
    HssKey::make(alloc, LOW, LOW, &ID, secret)
}

/// The signature of a message under a leaf.
fn signed<S: Scheme>(
    rt: &impl Abort,
    alloc: Global,
    scheme: &S,
    leaf: u32,
    message: &[u8],
) -> Result<Vec<u8>, AllocError> {
    let leaves = scheme.leaves();
    assert!(rt; leaf < leaves);
    let mut sig = vec![in alloc; 0; scheme.sig_len()]?;
    scheme.sign(leaf, message, &mut sig);
    Ok(sig)
}

/// Where numbers are in a signature, with those that are the same in each: how many keys are signed, the types of the upper signature, of
/// the lower public key and of the lower signature (RFC 8554, 6.2 and 5.4).
const NUMBERS: [(usize, u8); 7] = [
    (0, 1),
    (8, 4),
    (1_132, 5),
    (1_296, 5),
    (1_300, 4),
    (1_356, 4),
    (2_480, 5),
];

/// Checks a number of four bytes in a signature.
fn check_number(rt: &impl Abort, sig: &[u8], place: usize, number: u8) {
    let part = sig.get(place..).unwrap_or(b"");
    assert!(rt; part.starts_with(&[0, 0, 0, number]), "at {place}");
}

/// Checks the numbers in a signature, the upper and the lower leaf among them.
fn check_parts(rt: &impl Abort, sig: &[u8], upper: u8, lower: u8) {
    assert_eq!(rt; sig.len(), 2_644);
    for (place, number) in NUMBERS {
        check_number(rt, sig, place, number);
    }
    check_number(rt, sig, 4, upper);
    check_number(rt, sig, 1_352, lower);
}

/// Checks the signature that a scheme makes under a leaf of a key: it is that of the plain scheme.
fn check_leaf(
    rt: &impl Abort,
    alloc: Global,
    plain: &HssScheme,
    scheme: &SessionScheme,
    key: &[u8; 60],
    leaf: u32,
) -> Result<(), AllocError> {
    let wanted = signed(rt, alloc, plain, leaf, b"a message")?;
    let found = signed(rt, alloc, scheme, leaf, b"a message")?;
    assert_eq!(rt; found.as_slice(), wanted.as_slice());
    assert_eq!(rt; leaf_of(rt, scheme, &found), leaf);
    assert!(rt; accepts(scheme, key, b"a message", &found));
    Ok(())
}

// The key, the message and the hash of its signature come from another program.
const SECRET: &str = "a395f5a16802dca59fa7a4d144ebda1d1cf85005ca2961673346126d7d5db3e3";

const KEY: &str = "00000002000000050000000475c0fb3a123115b11702c6b6950cbd3b365c39d6aef5022de242573d\
    cb56569b7adb86ba235912fd74aeec4399bc6b87";

const MESSAGE: &str =
    "ba470103cec7978507ff0bdc0001000200000003e2ed23b1426eb34c1049122ba70aeed0aba6919a\
    384735c0a047b3a180233ba1a2f1b6755a420afe9d2764c91fde4c04d44c49e517da3d96e09106ec\
    ae878e35";

const SIGNATURE_HASH: &str = "760be46d9a7532d0d19dd39cf7ec7a1efc3a7b9b4f6ed14b161edb292ab6ec8b";

#[test]
fn a_secret_gives_its_key_and_signatures(rt: HostRuntime) -> Result<(), Fail> {
    let (secret, key) = (bytes::<32>(SECRET)?, bytes::<60>(KEY)?);
    let (message, hash) = (bytes::<84>(MESSAGE)?, bytes::<32>(SIGNATURE_HASH)?);
    let plain = HssScheme::new(key_of(rt.alloc(), &secret)?);
    let sig = signed(&rt, rt.alloc(), &plain, 36, &message)?;
    assert_eq!(rt; Sha256::digest(sig.as_slice()), hash);
    check_parts(&rt, &sig, 1, 4);
    assert!(rt; accepts(&plain, &key, &message, &sig));
    Ok(())
}

/// Two leaves of one tree, one of another tree that replaces it, and the first again.
#[test]
fn a_key_that_remembers_trees_signs_as_one_that_does_not(rt: HostRuntime) -> Result<(), Fail> {
    let alloc = rt.alloc();
    let (secret, key) = (bytes::<32>(SECRET)?, bytes::<60>(KEY)?);
    let plain = HssScheme::new(key_of(alloc, &secret)?);
    let mut remembers = key_of(alloc, &secret)?;
    remembers.remember(alloc, 32)?;
    assert_eq!(rt; remembers.public(), key);
    let scheme = SessionScheme::Double(HssScheme::new(remembers));
    for leaf in [36, 36, 37, 132, 36] {
        check_leaf(&rt, alloc, &plain, &scheme, &key, leaf)?;
    }
    Ok(())
}
