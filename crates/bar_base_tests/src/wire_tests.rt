use bar_window::{Role, XKind};
use bar_wire::{Body, Shape, WireFault, decode, encode, split_evidence};
use std::alloc::{AllocError, Global};
use std::process::Abort;
use std::test::Fail;

const ID: [u8; 8] = [0x00, 0x11, 0x22, 0x33, 0x44, 0x55, 0x66, 0x77];

/// A session of two peers, ten rounds and a life of four rounds.
fn shape() -> Shape {
    Shape {
        version: 1,
        id: ID,
        peers: 2,
        rounds: 10,
        life: 4,
        per_round: 8,
        sig_len: 1452,
    }
}

/// The same session in version 2, with 128 updates a round.
fn wide_shape() -> Shape {
    Shape {
        version: 2,
        id: ID,
        peers: 2,
        rounds: 10,
        life: 4,
        per_round: 128,
        sig_len: 1452,
    }
}

/// A header, the fields, and zeros up to a length.
fn datagram(
    alloc: Global,
    version: u8,
    kind: u8,
    from: u16,
    to: u16,
    fields: &[u8],
    len: usize,
) -> Result<Vec<u8>, AllocError> {
    let mut bytes = Vec::new(alloc);
    bytes.extend_from_slice(&[0xba, 0x47, version, kind])?;
    bytes.extend_from_slice(&ID)?;
    bytes.extend_from_slice(&from.to_be_bytes())?;
    bytes.extend_from_slice(&to.to_be_bytes())?;
    bytes.extend_from_slice(fields)?;
    bytes.resize(len, 0)?;
    Ok(bytes)
}

/// One datagram of each kind: its kind, sender, receiver, first fields and length.
const EACH_KIND: [(u8, u16, u16, &[u8], usize); 12] = [
    (1, 0, 0xffff, &[0, 0, 0, 1, 1], 1505),
    (2, 0, 1, &[0, 0, 0, 1, 7], 1045),
    (3, 1, 2, &[0, 0, 0, 1], 1536),
    (4, 2, 1, &[0, 0, 0, 1], 1504),
    (5, 1, 2, &[0, 0, 0, 1], 84),
    (6, 1, 2, &[0, 0, 0, 1], 1568),
    (7, 2, 1, &[0, 0, 0, 1], 1537),
    (8, 1, 2, &[0, 0, 0, 6, 0, 0, 1, 0], 2596),
    (9, 1, 2, &[0, 0, 0, 1, 0, 0], 22),
    (10, 1, 2, &[0, 0, 0, 1, 0, 0], 1506),
    (11, 1, 0, &[1, 0, 3, 7, 7, 7], 22),
    (12, 0, 0xffff, &[0, 0, 0, 1, 1, 0, 2], 1475),
];

/// Checks the fault of some bytes, or that they are read.
fn check_fault(rt: &impl Abort, bytes: &[u8], shape: &Shape, fault: Option<WireFault>) {
    let (kind, len) = (bytes.get(3), bytes.len());
    assert!(rt;
        decode(bytes, shape).err() == fault,
        "kind {kind:?}, {len} bytes"
    );
}

/// Checks that a datagram is read, and that each prefix of it has the fault of its length.
fn check_prefixes(rt: &impl Abort, bytes: &[u8]) {
    let shape = shape();
    check_fault(rt, bytes, &shape, None);
    for len in 0..bytes.len() {
        let fault = if len < 16 {
            WireFault::Short
        } else {
            WireFault::BadLength
        };
        check_fault(rt, &bytes[..len], &shape, Some(fault));
    }
}

#[test]
fn a_datagram_that_is_cut_off_has_the_fault_of_its_length(rt: HostRuntime) -> Result<(), Fail> {
    for (kind, from, to, fields, len) in EACH_KIND {
        check_prefixes(&rt, &datagram(rt.alloc(), 1, kind, from, to, fields, len)?);
    }
    Ok(())
}

/// The lengths in version 2 of the kinds whose fields have windows, and of a REQUEST. The others are the same as in version 1.
const WIDE_KINDS: [(u8, u16, u16, &[u8], usize); 7] = [
    (1, 0, 0xffff, &[0, 0, 0, 1, 128], 5569),
    (3, 1, 2, &[0, 0, 0, 1], 1536),
    (4, 2, 1, &[0, 0, 0, 1], 1536),
    (5, 1, 2, &[0, 0, 0, 1], 116),
    (6, 1, 2, &[0, 0, 0, 1], 1632),
    (7, 2, 1, &[0, 0, 0, 1], 1601),
    (8, 1, 2, &[0, 0, 0, 6, 0, 0, 1, 0], 2660),
];

/// Checks that a datagram of version 2 is read with its whole length, and by version 2 alone.
fn check_wide(rt: &impl Abort, bytes: &[u8]) {
    let front = bytes.get(..bytes.len().saturating_sub(1)).unwrap_or(b"");
    check_fault(rt, bytes, &wide_shape(), None);
    check_fault(rt, front, &wide_shape(), Some(WireFault::BadLength));
    check_fault(rt, bytes, &shape(), Some(WireFault::BadVersion));
}

#[test]
fn datagrams_of_version_two_have_wide_windows(rt: HostRuntime) -> Result<(), Fail> {
    for (kind, from, to, fields, len) in WIDE_KINDS {
        check_wide(&rt, &datagram(rt.alloc(), 2, kind, from, to, fields, len)?);
        let narrow = datagram(rt.alloc(), 1, kind, from, to, fields, len)?;
        check_fault(&rt, &narrow, &wide_shape(), Some(WireFault::BadVersion));
    }
    Ok(())
}

/// The fields of a REQUEST with a window of round 2 that has a word past this round.
const LATE_WORD: [u8; 36] = [
    0, 0, 0, 2, 0, 0, 0, 0, 0, 0, 0, 0, 0, 0, 0, 0, 0, 0, 0, 0, 0, 0, 0, 0, 0, 0, 0, 1, 0, 0, 0, 0,
    0, 0, 0, 0,
];

/// Datagrams in and out of the grammar: kind, sender, receiver, first fields, length and fault.
const FAULTS: [(u8, u16, u16, &[u8], usize, Option<WireFault>); 10] = [
    // a byte after a key request
    (
        9,
        2,
        1,
        &[0, 0, 0, 5, 0, 0, 0],
        23,
        Some(WireFault::BadLength),
    ),
    // a window of round 2, and one with a word past it
    (4, 2, 1, &[0, 0, 0, 2], 1504, None),
    (4, 2, 1, &LATE_WORD, 1504, Some(WireFault::BadField)),
    // parties in descending order, three parties with only two peers, and two where the count says three
    (
        12,
        0,
        0xffff,
        &[0, 0, 0, 7, 2, 0, 2, 0, 1],
        1477,
        Some(WireFault::BadField),
    ),
    (
        12,
        0,
        0xffff,
        &[0, 0, 0, 7, 3, 0, 1, 0, 2, 0, 3],
        1479,
        Some(WireFault::BadField),
    ),
    (
        12,
        0,
        0xffff,
        &[0, 0, 0, 7, 3, 0, 1, 0, 2],
        1477,
        Some(WireFault::BadLength),
    ),
    // an invalid kind of exchange, with the length of a push, and an empty case
    (
        8,
        1,
        2,
        &[0, 0, 0, 6, 7, 0, 1, 0],
        2629,
        Some(WireFault::BadField),
    ),
    (
        8,
        1,
        2,
        &[0, 0, 0, 6, 0, 0, 0, 0],
        1572,
        Some(WireFault::BadField),
    ),
    // from a peer to itself, and a round past the last
    (3, 1, 1, &[0, 0, 0, 1], 1536, Some(WireFault::BadField)),
    (3, 1, 2, &[0, 0, 0, 11], 1536, Some(WireFault::BadField)),
];

#[test]
fn datagrams_out_of_the_grammar_have_their_faults(rt: HostRuntime) -> Result<(), Fail> {
    for (kind, from, to, fields, len, fault) in FAULTS {
        let bytes = datagram(rt.alloc(), 1, kind, from, to, fields, len)?;
        check_fault(&rt, &bytes, &shape(), fault);
    }
    Ok(())
}

/// Checks that a datagram has this message, and that it is encoded as the same again.
fn check_encoded(
    rt: &impl Abort,
    bytes: &[u8],
    shape: &Shape,
    message: &[u8],
) -> Result<(), WireFault> {
    let view = decode(bytes, shape)?;
    assert_eq!(rt; view.message, message);
    let mut out = [0; 64];
    assert!(rt; view.message.len() <= out.len());
    let len = encode(view.from, view.to, &view.body, shape, &mut out);
    assert_eq!(rt; out.get(..len), Some(message));
    Ok(())
}

/// The KEYREQ of party 2 for the key of party 1, which began a balanced exchange of round 5.
const KEY_REQUEST: [u8; 22] = [
    0xba, 0x47, 0x01, 0x09, 0x00, 0x11, 0x22, 0x33, 0x44, 0x55, 0x66, 0x77, 0x00, 0x02, 0x00, 0x01,
    0x00, 0x00, 0x00, 0x05, 0x00, 0x00,
];

#[test]
fn a_key_request_is_read(rt: HostRuntime) -> Result<(), Fail> {
    let view = decode(&KEY_REQUEST, &shape())?;
    assert!(rt; (view.from, view.to) == (2, 1) && view.sig.is_none());
    assert!(rt;
        matches!(
            &view.body,
            Body::KeyReq {
                round: 5,
                xkind: XKind::Balanced,
                role: Role::Initiator
            }
        )
    );
    Ok(())
}

#[test]
fn a_key_request_is_written_again(rt: HostRuntime) -> Result<(), Fail> {
    Ok(check_encoded(&rt, &KEY_REQUEST, &shape(), &KEY_REQUEST)?)
}

#[test]
fn a_notice_of_eviction_is_read_and_written(rt: HostRuntime) -> Result<(), Fail> {
    let message = [
        0xba, 0x47, 0x01, 0x0c, 0x00, 0x11, 0x22, 0x33, 0x44, 0x55, 0x66, 0x77, 0x00, 0x00, 0xff,
        0xff, 0x00, 0x00, 0x00, 0x07, 0x01, 0x00, 0x02,
    ];
    let bytes = datagram(rt.alloc(), 1, 12, 0, 0xffff, &[0, 0, 0, 7, 1, 0, 2], 1475)?;
    check_encoded(&rt, &bytes, &shape(), &message)?;
    let signature = decode(&bytes, &shape())?.sig;
    assert_eq!(rt; signature.map_or(0, |sig| sig.len()), 1452);
    Ok(())
}

#[test]
fn evidence_is_split(rt: HostRuntime) -> Result<(), Fail> {
    let view = split_evidence(&[2, 0, 1, 9, 0, 2, 7, 8])?;
    assert!(rt; view.one == [9].as_slice() && view.two == Some([7, 8].as_slice()));
    Ok(())
}

#[test]
fn bytes_that_are_no_evidence_have_their_faults(rt: HostRuntime) {
    let rows: [(&[u8], WireFault); 5] = [
        (&[], WireFault::BadLength),
        (&[1, 0, 2, 9], WireFault::BadLength),
        (&[1, 0, 1, 9, 9], WireFault::BadLength),
        (&[1, 0, 0], WireFault::BadField),
        (&[3, 0, 1, 9, 0, 1, 9, 0, 1, 9], WireFault::BadField),
    ];
    for (bytes, fault) in rows {
        assert!(rt; split_evidence(bytes).err() == Some(fault), "{bytes:?}");
    }
}

#[test]
fn faults_are_shown_by_their_names(rt: HostRuntime) -> Result<(), Fail> {
    let rows = [
        (WireFault::Short, "Short"),
        (WireFault::BadMagic, "BadMagic"),
        (WireFault::BadVersion, "BadVersion"),
        (WireFault::BadKind, "BadKind"),
        (WireFault::BadSession, "BadSession"),
        (WireFault::BadLength, "BadLength"),
        (WireFault::BadField, "BadField"),
    ];
    for (fault, name) in rows {
        assert_eq!(rt; format!(in rt.alloc(); "{fault}")?.as_str(), name);
    }
    Ok(())
}
