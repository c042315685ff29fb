//! Tests of table files of a small session. The broadcaster's key was made by a Python program written from RFC 8554.
ghost use Rattle.std.specs.Prelude.{◌≡◌, ◌<◌};

use crate::verdict_tests::session_of;
use bar_bytes::Steps;
use bar_hss::SessionVerifier;
use bar_judge::{TableFault, add_entry, read_table};
use bar_roster::Session;
use bar_samples::sessions::three_rounds;
use bar_samples::signed::{front, scheme_of, sign};
use bar_seal::LmsScheme;
use bar_terms::{Digest, Table};
use bar_window::UpdateId;
use std::alloc::{AllocError, Global};
use std::marker::Brand;
use std::process::Abort;
use std::sync::ledger::{Blank, Ledger};
use std::test::Fail;

/// A part of a table file.
#[derive(Clone, Copy)]
enum Part {
    /// The entry of the manifest of a round.
    Manifest(u8),
    /// The same entry with the last byte of its signature changed.
    Changed(u8),
    /// The same entry without its last byte.
    Cut(u8),
    /// A byte.
    Byte(u8),
}

/// The digest of an update: its round and its index in each byte.
fn digest_of(round: u8, index: u8) -> [u8; 32] {
    [round.wrapping_mul(16).wrapping_add(index); 32]
}

/// The manifest of a round with two digests.
fn manifest(alloc: Global, caster: &LmsScheme, round: u8) -> Result<Vec<u8>, AllocError> {
    let mut bytes = front(alloc, 1, [0, 0, 0xff, 0xff], round)?;
    bytes.push(2)?;
    bytes.extend_from_slice(&digest_of(round, 0))?;
    bytes.extend_from_slice(&digest_of(round, 1))?;
    sign(alloc, caster, u32::from(round), &mut bytes)?;
    Ok(bytes)
}

fn add_manifest(
    rt: &impl Abort,
    alloc: Global,
    caster: &LmsScheme,
    round: u8,
    out: &mut Vec<u8>,
) -> Result<(), AllocError> {
    let manifest = manifest(alloc, caster, round)?;
    let len = manifest.len();
    assert!(rt; len < 65_536);
    add_entry(out, &manifest)
}

fn add_part(
    rt: &impl Abort,
    alloc: Global,
    caster: &LmsScheme,
    part: Part,
    out: &mut Vec<u8>,
) -> Result<(), AllocError> {
    match part {
        Part::Manifest(round) => add_manifest(rt, alloc, caster, round, out)?,
        Part::Changed(round) => {
            add_manifest(rt, alloc, caster, round, out)?;
            if let Some(byte) = out.last_mut() {
                *byte ^= 1;
            }
        }
        Part::Cut(round) => {
            add_manifest(rt, alloc, caster, round, out)?;
            out.pop();
        }
        Part::Byte(byte) => out.push(byte)?,
    }
    Ok(())
}

fn file_of(
    rt: &impl Abort,
    alloc: Global,
    caster: &LmsScheme,
    parts: &[Part],
) -> Result<Vec<u8>, AllocError> {
    let mut bytes = Vec::new(alloc);
    for part in parts {
        add_part(rt, alloc, caster, *part, &mut bytes)?;
    }
    Ok(bytes)
}

fn read_with<L: Ledger>(
    alloc: Global,
    bytes: &[u8],
    session: &Session,
    blank: Blank,
) -> Result<Table, TableFault>
    requires name { blank.name ≡ L.name }
    requires parts { blank.parts ≡ L.parts }
    requires some { 0 < L.parts }
{
    let verifier = SessionVerifier::of(session);
    read_table(
        alloc,
        bytes,
        session,
        &verifier,
        &mut Steps::<L>::new(blank),
    )
}

fn read(alloc: Global, bytes: &[u8], session: &Session) -> Result<Table, TableFault> {
    read_with::<Brand>(alloc, bytes, session, Blank::new(1))
}

/// The parts of a file, and the offset of its first bad entry. An entry has 8,931 bytes.
const ROWS: [(&[Part], Option<u64>); 11] = [
    (&[], None),
    (&[Part::Manifest(3)], None),
    (&[Part::Manifest(1), Part::Manifest(3)], None),
    (&[Part::Changed(1), Part::Manifest(3)], Some(0)),
    (&[Part::Manifest(1), Part::Changed(3)], Some(8931)),
    (&[Part::Manifest(2), Part::Manifest(2)], Some(8931)),
    (&[Part::Manifest(2), Part::Manifest(1)], Some(8931)),
    (&[Part::Manifest(2), Part::Manifest(4)], Some(8931)),
    (&[Part::Manifest(1), Part::Cut(2)], Some(8931)),
    (&[Part::Manifest(1), Part::Byte(0)], Some(8931)),
    (
        &[Part::Manifest(1), Part::Byte(0), Part::Byte(0)],
        Some(8931),
    ),
];

/// Checks the offset of the first bad entry of a file of these parts.
fn check_place(
    rt: &impl Abort,
    alloc: Global,
    session: &Session,
    caster: &LmsScheme,
    parts: &[Part],
    place: Option<u64>,
) -> Result<(), AllocError> {
    let bytes = file_of(rt, alloc, caster, parts)?;
    let fault = place.map(|at| TableFault::BadEntry { at });
    assert_eq!(rt; read(alloc, &bytes, session).err(), fault);
    Ok(())
}

#[test]
fn a_table_file_is_read_up_to_a_bad_entry(rt: HostRuntime) -> Result<(), Fail> {
    let alloc = rt.alloc();
    let session = session_of(alloc, three_rounds())?;
    let caster = scheme_of(alloc, three_rounds(), 7)?;
    for (parts, place) in ROWS {
        check_place(&rt, alloc, &session, &caster, parts, place)?;
    }
    Ok(())
}

/// Checks the digest of an update in a table.
fn check_digest(rt: &impl Abort, table: &Table, round: u8, index: u8, expected: Digest<'_>) {
    let id = UpdateId {
        round: u32::from(round),
        index,
    };
    assert_eq!(rt; table.digest(id), expected);
}

/// Checks the table of a file with the manifests of rounds 1 and 3.
fn check_table(
    rt: &impl Abort,
    alloc: Global,
    session: &Session,
    caster: &LmsScheme,
) -> Result<(), Fail> {
    let parts = [Part::Manifest(1), Part::Manifest(3)];
    let bytes = file_of(rt, alloc, caster, &parts)?;
    let table = read(alloc, &bytes, session)?;
    for round in [1, 3] {
        for index in [0, 1] {
            let digest = digest_of(round, index);
            check_digest(rt, &table, round, index, Digest::Known(&digest));
        }
    }
    check_digest(rt, &table, 3, 2, Digest::PastEnd);
    check_digest(rt, &table, 2, 0, Digest::NoManifest);
    Ok(())
}

#[test]
fn a_table_has_the_digests_of_its_file(rt: HostRuntime) -> Result<(), Fail> {
    let alloc = rt.alloc();
    let session = session_of(alloc, three_rounds())?;
    let caster = scheme_of(alloc, three_rounds(), 7)?;
    check_table(&rt, alloc, &session, &caster)
}
