//! Tests of key texts and key files, with values that an independent program made.

use crate::hex_bytes::bytes;
use bar_roster::{KeyFile, KeyFileFault, Session, key_text};
use bar_seeds::Secrets;
use std::alloc::Global;
use std::process::Abort;
use std::test::Fail;

const TEXT_OF_3: &str = "version = 1
id = \"0704aabbccddeeff\"
party = 3
rounds = 1820
lms = 7
ots = 4
secret = \"ec71b63be08df8d680e1bab4f71ca1e81351f78a933b6135b1d993bec8b3ecb8\"
spent = false
";

const ID: &str = "0501aabbccddeeff";

const SECRET: &str = "a6eef21778369036712f70881cfd21d4e8c5ae7aaa6a1fa5bc3743cfe033355b";

const KEY: &str =
    "0000000500000001214fcbf092c12b40edd797557739a15c67edceaaeae6787687e838b2d7671595e0c6a07986d99fb99075bfe58fdd7052";

const ANCHOR: &str = "7d42701b352a962f7b93a08f44069823e35a35f58196fe87405a25b0189cf714";

// The broadcaster's secret. Its public key, which is in the session, was made by a Python program written from RFC 8554.
const CASTER_SECRET: &str = "adba12a48106cbc6119fe8fac3e4df58a497d74bed9486c41acad3818572de2a";

const BEFORE_KEY: &str = "version = 1
id = \"0501aabbccddeeff\"
rounds = 1
life = 2
cap = 1
per_round = 1
port = 1024
tick_ms = 1
lms = 5
ots = 1
fanout = 1
key = \"00000005000000012fd3c64b76ddc9eb24a8a315d2fa68ab66f7c62b4b5195e422539ab34cfce87b734c5cbbfa9e9b429e88f2bf0f543ef9\"

[[peer]]
key = \"0000000500000001111111111111111111111111111111111111111111111111111111111111111111111111111111111111111111111111\"
anchor = \"0000000000000000000000000000000000000000000000000000000000000000\"

[[peer]]
key = \"";

// A session of two peers, the second with this key and this anchor.
fn session(alloc: Global, key: &str, anchor: &str) -> Result<Session, Fail> {
    let mut text = String::from_str(alloc, BEFORE_KEY)?;
    text.push_str(key)?;
    text.push_str("\"\nanchor = \"")?;
    text.push_str(anchor)?;
    text.push_str("\"\n")?;
    Ok(Session::read(alloc, text.as_bytes())?)
}

// The text of a key of this session.
fn text(
    alloc: Global,
    party: u16,
    secret: &str,
    rounds: u32,
    spent: bool,
) -> Result<Vec<u8>, Fail> {
    Ok(key_text(
        alloc,
        party,
        &bytes::<8>(ID)?,
        rounds,
        5,
        1,
        &bytes::<32>(secret)?,
        spent,
    )?)
}

#[test]
fn key_texts_are_eight_lines(rt: HostRuntime) -> Result<(), Fail> {
    let id = bytes::<8>("0704aabbccddeeff")?;
    let secret = bytes::<32>("ec71b63be08df8d680e1bab4f71ca1e81351f78a933b6135b1d993bec8b3ecb8")?;
    let text = key_text(rt.alloc(), 3, &id, 1820, 7, 4, &secret, false)?;
    assert_eq!(rt; text.as_slice(), TEXT_OF_3.as_bytes());
    Ok(())
}

// Checks whose key file this is, and its secret.
fn check_secrets(rt: &impl Abort, secrets: &Secrets, secret: [u8; 32]) -> Result<(), Fail> {
    let id = bytes::<8>(ID)?;
    assert!(rt; secrets.party == 2 && secrets.id == id && secrets.secret == secret);
    Ok(())
}

#[test]
fn a_peers_key_file_has_its_key_and_anchor(rt: HostRuntime) -> Result<(), Fail> {
    let alloc = rt.alloc();
    let (key, anchor) = (bytes::<56>(KEY)?, bytes::<32>(ANCHOR)?);
    let secret = bytes::<32>(SECRET)?;
    let text = text(alloc, 2, SECRET, 1, false)?;
    let session = session(alloc, KEY, ANCHOR)?;
    assert!(rt; session.top().is_none());
    let file = KeyFile::read(alloc, &text, &session, false, true)?;
    check_secrets(&rt, &file.secrets, secret)?;
    assert!(rt; file.signer.public() == key && file.chain.anchor() == anchor);
    Ok(())
}

#[test]
fn a_spent_key_file_is_read_where_it_may_be_spent(rt: HostRuntime) -> Result<(), Fail> {
    let alloc = rt.alloc();
    let spent = text(alloc, 2, SECRET, 1, true)?;
    let session = session(alloc, KEY, ANCHOR)?;
    assert!(rt; session.top().is_none());
    assert!(rt; matches!(KeyFile::read(alloc, &spent, &session, false, false), Ok(_)));
    Ok(())
}

#[test]
fn the_broadcasters_key_file_has_its_key(rt: HostRuntime) -> Result<(), Fail> {
    let alloc = rt.alloc();
    let text = text(alloc, 0, CASTER_SECRET, 1, false)?;
    let session = session(alloc, KEY, ANCHOR)?;
    assert!(rt; session.top().is_none());
    let file = KeyFile::read(alloc, &text, &session, true, true)?;
    assert_eq!(rt; file.signer.public().as_slice(), session.key(0));
    Ok(())
}

// If writing a key file stopped at any byte, the file doesn't read as a fresh key.
#[test]
fn no_front_of_a_spent_key_text_is_a_fresh_key(rt: HostRuntime) -> Result<(), Fail> {
    let alloc = rt.alloc();
    let session = session(alloc, KEY, ANCHOR)?;
    let spent = text(alloc, 2, SECRET, 1, true)?;
    assert!(rt; session.top().is_none());
    for len in 0..spent.len() {
        let front = spent.get(..len).unwrap_or(b"");
        let read = KeyFile::read(alloc, front, &session, false, true);
        assert!(rt; matches!(read, Err(_)), "at {len}");
    }
    Ok(())
}

#[test]
fn faults_are_printed_by_their_names(rt: HostRuntime) -> Result<(), Fail> {
    for (fault, wanted) in [
        (KeyFileFault::NotToml, "NotToml"),
        (KeyFileFault::BadValue, "BadValue"),
        (KeyFileFault::NotInRoster, "NotInRoster"),
        (KeyFileFault::Spent, "Spent"),
        (KeyFileFault::NoMemory, "no memory"),
    ] {
        let text = format!(in rt.alloc(); "{fault}")?;
        assert_eq!(rt; text.as_str(), wanted);
    }
    Ok(())
}
