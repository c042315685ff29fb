//! Makes keys of the given types, signs with one or verifies a signature, a given number of times, and prints the SHA-256 of the results.
//! `bar` doesn't use it. tools/benchmark-keys builds it at two commits and compares their times.
#![tactic(auto)]

ghost use Rattle.std.specs.Prelude.{◌≡◌, ◌<◌};

use bar_bytes::Steps;
use bar_lms::{Params, PublicKey, SecretKey, verify};
use sha2::{Digest, Sha256};
use std::env::Env;
use std::io::{ErrorKind, Write};
use std::marker::Brand;
use std::sync::ledger::{Blank, Ledger};
use std::{env, io};

const ID: [u8; 8] = [0, 1, 2, 3, 4, 5, 6, 7];

const SECRET: [u8; 32] = [9; 32];

const LONGEST_SIGNATURE: usize = 9004;

/// The arguments after the program's name.
fn words_of<R: Env + AllocGlobal>(rt: &R) -> io::Result<Vec<String>> {
    let mut words = Vec::new(rt.alloc());
    for word in env::args(rt)?.skip(1) {
        words.push(word)?;
    }
    Ok(words)
}

fn is_counted<L: Ledger>(key: &PublicKey, message: &[u8], sig: &[u8], blank: Blank) -> bool
    requires name { blank.name ≡ L.name }
    requires parts { blank.parts ≡ L.parts }
    requires some { 0 < L.parts }
{
    verify(key, message, sig, &mut Steps::<L>::new(blank))
}

/// Whether a signature is accepted.
fn accepts(key: &PublicKey, message: &[u8], sig: &[u8]) -> bool {
    is_counted::<Brand>(key, message, sig, Blank::new(1))
}

/// Makes `count` keys, and hashes them.
fn make_keys<R: AllocGlobal>(rt: &R, params: Params, count: u32) -> io::Result<[u8; 32]> {
    let mut hasher = Sha256::new();
    for number in 0..count {
        let mut secret = SECRET;
        secret[..4].copy_from_slice(&number.to_be_bytes());
        let key = SecretKey::make(rt.alloc(), params, &ID, &secret)?;
        hasher.update(key.public().as_slice());
    }
    Ok(hasher.finalize())
}

/// Signs `count` numbers under the first leaf of a key, and hashes the signatures.
fn sign_numbers<R: AllocGlobal>(rt: &R, params: Params, count: u32) -> io::Result<[u8; 32]> {
    let key = SecretKey::make(rt.alloc(), params, &ID, &SECRET)?;
    let mut out = [0u8; LONGEST_SIGNATURE];
    let mut hasher = Sha256::new();
    for number in 0..count {
        let length = key.sign(0, &number.to_be_bytes(), &mut out);
        hasher.update(&out[..length]);
    }
    Ok(hasher.finalize())
}

/// Verifies a signature `count` times, each time on another message. The first message is the one that was signed.
fn verify_numbers<R: AllocGlobal>(rt: &R, params: Params, count: u32) -> io::Result<[u8; 32]> {
    let key = SecretKey::make(rt.alloc(), params, &ID, &SECRET)?;
    let Ok(public) = PublicKey::read(&key.public()) else {
        return Err(io::Error::from(ErrorKind::InvalidData));
    };
    let mut out = [0u8; LONGEST_SIGNATURE];
    let length = key.sign(0, &0u32.to_be_bytes(), &mut out);
    let mut hasher = Sha256::new();
    for number in 0..count {
        let accepted = accepts(&public, &number.to_be_bytes(), &out[..length]);
        hasher.update(&[u8::from(accepted)]);
    }
    Ok(hasher.finalize())
}

/// What is done with keys.
#[derive(Clone, Copy)]
enum Work {
    Make,
    Sign,
    Verify,
}

/// What the program's arguments ask for: the work, the types of the key and how often it is done.
#[derive(Clone, Copy)]
struct Request {
    work: Work,
    params: Params,
    count: u32,
}

/// Parses the arguments: `key`, `sign` or `verify`, the LMS type, the LM-OTS type and a count.
fn request_of(words: &[String]) -> Option<Request> {
    let [work, lms, ots, count] = words else {
        return None;
    };
    let work = match work.as_str() {
        "key" => Work::Make,
        "sign" => Work::Sign,
        "verify" => Work::Verify,
        _ => return None,
    };
    let params = Params::of_types(lms.parse().ok()?, ots.parse().ok()?).ok()?;
    let count = count.parse().ok()?;
    Some(Request {
        work,
        params,
        count,
    })
}

fn main(rt: HostRuntime) -> io::Result<()> {
    let words = words_of(&rt)?;
    let Some(request) = request_of(&words) else {
        return Err(io::Error::from(ErrorKind::InvalidInput));
    };
    let hash = match request.work {
        Work::Make => make_keys(&rt, request.params, request.count)?,
        Work::Sign => sign_numbers(&rt, request.params, request.count)?,
        Work::Verify => verify_numbers(&rt, request.params, request.count)?,
    };
    let text = hex::encode(rt.alloc(), hash)?;
    let line = format!(in rt.alloc(); "{text}\n")?;
    rt.stdout().write_all(line.as_bytes())
}
