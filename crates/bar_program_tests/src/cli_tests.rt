//! Tests of replays and of a peer, over files, links and sinks in memory. The keys and the signature were made by a Python program written
//! from RFC 8554.
use crate::outcome::{Left, check_end, check_file, check_status, outside_of, run};
use bar_outside::MemFiles;
use bar_samples::keys::{peer_key, small_key};
use bar_samples::sessions::{ID, session, small_session};
use bar_samples::signatures::small_signature;
use bar_samples::signed::{add_entry, block_with};
use sha2::{Digest, Sha256};
use std::alloc::{AllocError, Global};
use std::test::Fail;

const LINE: &str = "replay --recording rec --session ses --found f --played p --key k";

const PEER_LINE: &str = "peer --session ses --key k --begin 0 --played p --recording rec --found f";

/// The start of a datagram of the broadcaster in round 1.
fn front_of(alloc: Global, kind: u8, to: [u8; 2]) -> Result<Vec<u8>, AllocError> {
    let mut bytes = [0xba, 0x47, 0x01, kind].to_vec(alloc)?;
    bytes.extend_from_slice(&ID)?;
    bytes.extend_from_slice(&[0, 0, to[0], to[1], 0, 0, 0, 1])?;
    Ok(bytes)
}

/// The manifest of round 1 with the digest of a block.
fn manifest_of(alloc: Global, block: &[u8; 1024]) -> Result<Vec<u8>, Fail> {
    let mut bytes = front_of(alloc, 1, [0xff, 0xff])?;
    bytes.push(1)?;
    bytes.extend_from_slice(&Sha256::digest(block.as_slice()))?;
    bytes.extend_from_slice(&hex::decode(alloc, small_signature())?)?;
    Ok(bytes)
}

/// The BLOCK datagram of that block, for party 2.
fn block_of(alloc: Global, block: &[u8; 1024]) -> Result<Vec<u8>, AllocError> {
    let mut bytes = front_of(alloc, 2, [0, 2])?;
    bytes.push(0)?;
    bytes.extend_from_slice(block)?;
    Ok(bytes)
}

/// The recording of party 2 that took both datagrams, and the ticks up to that in which the block of round 1 is played.
fn recording_of(alloc: Global, manifest: &[u8], block: &[u8]) -> Result<Vec<u8>, AllocError> {
    let mut bytes = b"BARL\x01".to_vec(alloc)?;
    bytes.extend_from_slice(&ID)?;
    bytes.extend_from_slice(&[0, 2, 1, 2])?;
    add_entry(&mut bytes, manifest)?;
    bytes.push(2)?;
    add_entry(&mut bytes, block)?;
    bytes.extend_from_slice(&[1; 32])?;
    bytes.push(0)?;
    Ok(bytes)
}

fn recording(alloc: Global) -> Result<Vec<u8>, Fail> {
    let hi = block_with(2, *b"hi");
    let manifest = manifest_of(alloc, &hi)?;
    let block = block_of(alloc, &hi)?;
    Ok(recording_of(alloc, &manifest, &block)?)
}

/// Files with a session, a key and a recording, of which these calls fail.
fn files_of(
    alloc: Global,
    session: &str,
    key: &str,
    recording: &[u8],
    fail: &[u64],
) -> Result<MemFiles, AllocError> {
    let mut files = MemFiles::make(alloc, fail.to_vec(alloc)?);
    files.put("ses", session.as_bytes())?;
    files.put("k", key.as_bytes())?;
    files.put("rec", recording)?;
    Ok(files)
}

/// Runs a replay of which these calls of the files and these writes to out and err fail.
fn replay(
    alloc: Global,
    session: &str,
    recording: &[u8],
    fail_files: &[u64],
    fail_out: &[u64],
    fail_err: &[u64],
) -> Result<Left, AllocError> {
    let files = files_of(alloc, session, small_key(), recording, fail_files)?;
    run(alloc, LINE, outside_of(alloc, files, fail_out, fail_err)?)
}

/// How many lines were begun.
fn count_lines(left: &Left) -> usize {
    let out = left.outside.out.bytes();
    out.split(|byte| *byte == b'\n')
        .filter(|line| line.contains(&b' '))
        .count()
}

/// The failing calls of the files and of out, the status, what was played, and how many lines were begun.
const ENDS: [(&[u64], &[u64], u8, &[u8], usize); 10] = [
    (&[], &[], 0, b"hi", 16),
    (&[1], &[], 3, b"none", 0),
    (&[2], &[], 3, b"none", 0),
    (&[3], &[], 3, b"none", 0),
    (&[4], &[], 3, b"none", 0),
    (&[5], &[], 3, b"h", 16),
    (&[6], &[], 3, b"hi", 16),
    (&[7], &[], 3, b"hi", 16),
    (&[], &[1], 7, b"", 1),
    (&[], &[16], 7, b"", 16),
];

/// The error line for a status.
fn said(status: u8) -> &'static str {
    match status {
        3 => "bar: file failed\n",
        7 => "bar: output failed\n",
        _ => "",
    }
}

#[test]
fn statuses_and_lines(rt: HostRuntime) -> Result<(), Fail> {
    let alloc = rt.alloc();
    let bytes = recording(alloc)?;
    for (fail_files, fail_out, status, played, lines) in ENDS {
        let left = replay(alloc, small_session(), &bytes, fail_files, fail_out, &[])?;
        check_status(&rt, &left, status, said(status));
        check_file(&rt, &left, "p", played);
        assert_eq!(rt; count_lines(&left), lines);
        check_file(&rt, &left, "rec", &bytes);
    }
    Ok(())
}

/// The status reports the bad session even if standard error can't be written.
#[test]
fn a_closed_standard_error(rt: HostRuntime) -> Result<(), Fail> {
    let left = replay(rt.alloc(), "version = 4", b"", &[], &[], &[1])?;
    check_status(&rt, &left, 4, "bar: session refuse");
    check_file(&rt, &left, "p", b"none");
    Ok(())
}

/// If the link ends at once, a peer does nothing, and so does a replay of the recording that it left.
#[test]
fn a_peer_whose_link_ends_at_once(rt: HostRuntime) -> Result<(), Fail> {
    let alloc = rt.alloc();
    let files = files_of(alloc, session(), peer_key(), b"", &[])?;
    let peer = run(alloc, PEER_LINE, outside_of(alloc, files, &[], &[])?)?;
    check_end(&rt, &peer, 0, "ticks 0 sent 0 played 0\n", "");
    let left = peer.outside;
    let replayed = run(alloc, LINE, outside_of(alloc, left.files, &[], &[])?)?;
    check_end(&rt, &replayed, 0, "", "");
    check_file(&rt, &replayed, "p", b"");
    check_file(&rt, &replayed, "f.table", b"");
    Ok(())
}
