//! Tests of what an auditor reports about one exchange, from the recordings of both its parties. The keys were made by a Python program
//! written from RFC 8554.
ghost use Rattle.std.specs.Prelude.{◌≡◌, ◌<◌};

use bar_audit::{Audit, AuditFault, Line};
use bar_bytes::Steps;
use bar_hss::SessionVerifier;
use bar_record::{Items, head, read};
use bar_roster::Session;
use bar_samples::sessions::{ID, session_of_short_chains};
use bar_samples::signed::{add_words, changed, front, scheme_of, sign};
use bar_seal::LmsScheme;
use bar_window::{Exchange, XKind};
use std::alloc::{AllocError, Global};
use std::marker::Brand;
use std::process::Abort;
use std::sync::ledger::{Blank, Ledger};
use std::test::Fail;

/// The number of the session's last tick.
const LAST: u32 = 120;

/// The balanced exchange of round 6, which peer 1 initiates with peer 2.
const X: Exchange = Exchange {
    round: 6,
    kind: XKind::Balanced,
    initiator: 1,
    responder: 2,
};

/// Appends what follows the round in a CASE. It promises one update, and its cipher is all zeros.
fn add_case(bytes: &mut Vec<u8>, role: u8) -> Result<(), AllocError> {
    bytes.extend_from_slice(&[0, role, 1, 0])?;
    bytes.extend_from_slice(&[0; 32])?;
    add_words(bytes, &[5, 0, 10, 0, 4, 0x80, 0, 0])?;
    bytes.extend_from_slice(&[0; 1024])
}

/// Appends what follows the round in a KEY.
fn add_key(bytes: &mut Vec<u8>, role: u8) -> Result<(), AllocError> {
    bytes.extend_from_slice(&[0, role])?;
    bytes.extend_from_slice(&[0; 32])
}

/// The CASE of a peer (peer 1 is the initiator, with role 0) to the other one.
fn case_of(alloc: Global, scheme: &LmsScheme, from: u8) -> Result<Vec<u8>, AllocError> {
    let (to, role) = if from == 1 { (2, 0) } else { (1, 1) };
    let mut bytes = front(alloc, 8, [0, from, 0, to], 6)?;
    add_case(&mut bytes, role)?;
    sign(alloc, scheme, 1, &mut bytes)?;
    Ok(bytes)
}

/// The KEY of a peer for its side.
fn key_of(alloc: Global, scheme: &LmsScheme, from: u8) -> Result<Vec<u8>, AllocError> {
    let (to, role) = if from == 1 { (2, 0) } else { (1, 1) };
    let mut bytes = front(alloc, 10, [0, from, 0, to], 6)?;
    add_key(&mut bytes, role)?;
    sign(alloc, scheme, 2, &mut bytes)?;
    Ok(bytes)
}

/// The CASE and the KEY that a peer sent.
#[derive(Drop)]
struct Sent {
    case: Vec<u8>,
    key: Vec<u8>,
}

/// What a peer sent, whose secret is 32 times one byte.
fn sent_by(alloc: Global, from: u8, secret: u8) -> Result<Sent, Fail> {
    let scheme = scheme_of(alloc, session_of_short_chains(), secret)?;
    let case = case_of(alloc, &scheme, from)?;
    let key = key_of(alloc, &scheme, from)?;
    Ok(Sent { case, key })
}

/// Appends a datagram that was taken.
fn add_taken(bytes: &mut Vec<u8>, datagram: &[u8]) -> Result<(), AllocError> {
    let len = datagram.len();
    bytes.extend_from_slice(&[2, (len / 256 % 256) as u8, (len % 256) as u8])?;
    bytes.extend_from_slice(datagram)
}

/// The recording of a party that took some datagrams and one tick.
fn recording_of(alloc: Global, party: u16, datagrams: &[&Vec<u8>]) -> Result<Vec<u8>, AllocError> {
    let mut bytes = head(&ID, party).to_vec(alloc)?;
    bytes.push(1)?;
    for datagram in datagrams {
        add_taken(&mut bytes, datagram)?;
    }
    bytes.push(0)?;
    Ok(bytes)
}

/// An auditor after one more recording.
fn add<L: Ledger>(
    audit: Audit,
    session: &Session,
    party: u16,
    items: Items<'_>,
    steps: &mut Steps<L>,
) -> Result<Audit, AuditFault> {
    let verifier = SessionVerifier::of(session);
    audit.add(session, &verifier, party, items, steps)
}

/// An auditor after these recordings in turn.
fn audit_with<L: Ledger>(
    alloc: Global,
    session: &Session,
    recordings: &[(u16, Items<'_>)],
    blank: Blank,
) -> Result<Audit, AuditFault>
    requires name { blank.name ≡ L.name }
    requires parts { blank.parts ≡ L.parts }
    requires some { 0 < L.parts }
{
    let mut steps = Steps::<L>::new(blank);
    let mut audit = Audit::make(alloc);
    for (party, items) in recordings {
        audit = add(audit, session, *party, *items, &mut steps)?;
    }
    Ok(audit)
}

fn audit_of(
    alloc: Global,
    session: &Session,
    recordings: &[(u16, Items<'_>)],
) -> Result<Audit, AuditFault> {
    audit_with::<Brand>(alloc, session, recordings, Blank::new(1))
}

/// An auditor after the recordings of both parties.
fn audit_of_both(
    alloc: Global,
    session: &Session,
    by_one: &[u8],
    by_two: &[u8],
) -> Result<Audit, Fail> {
    let by_one = read(by_one, &ID, 1, LAST)?;
    let by_two = read(by_two, &ID, 2, LAST)?;
    Ok(audit_of(alloc, session, &[(1, by_one), (2, by_two)])?)
}

/// Checks how many exchanges are reported, and which of them is the first unbalanced one.
fn check_counts(rt: &impl Abort, audit: &Audit, len: u32, unbalanced: Option<Exchange>) {
    assert_eq!(rt; audit.len(), len);
    assert!(rt; audit.unbalanced() == unbalanced);
}

/// Checks that an auditor's report has this line alone.
fn check_line(rt: &impl Abort, audit: &Audit, line: Line) {
    assert!(rt; audit.line(0) == Some(line));
    assert!(rt; audit.line(1).is_none());
}

/// Compares the auditor's report on the recordings of both parties with a line about the exchange, and with whether it is balanced.
fn expect(
    rt: &impl Abort,
    alloc: Global,
    session: &Session,
    datagrams: ([&Vec<u8>; 2], [&Vec<u8>; 2]),
    line: ([u8; 2], [bool; 2]),
    balanced: bool,
) -> Result<(), Fail> {
    let (by_one, by_two) = datagrams;
    let by_one = recording_of(alloc, 1, &by_one)?;
    let by_two = recording_of(alloc, 2, &by_two)?;
    let audit = audit_of_both(alloc, session, &by_one, &by_two)?;
    let (cases, keys) = line;
    check_line(rt, &audit, Line { x: X, cases, keys });
    check_counts(rt, &audit, 1, if balanced { None } else { Some(X) });
    Ok(())
}

#[test]
fn what_was_received_is_told(rt: HostRuntime) -> Result<(), Fail> {
    let alloc = rt.alloc();
    let session = Session::read(alloc, session_of_short_chains().as_bytes())?;
    let one = sent_by(alloc, 1, 8)?;
    let two = sent_by(alloc, 2, 9)?;
    let forged = changed(alloc, &two.key)?;
    let both = ([&two.case, &two.key], [&one.case, &one.key]);
    expect(&rt, alloc, &session, both, ([1, 1], [true, true]), true)?;
    let kept_back = ([&forged, &forged], [&one.case, &one.key]);
    let line = ([1, 0], [true, false]);
    expect(&rt, alloc, &session, kept_back, line, false)?;
    let for_others = ([&one.case, &one.key], [&two.case, &one.key]);
    let line = ([0, 0], [true, false]);
    expect(&rt, alloc, &session, for_others, line, false)?;
    Ok(())
}

/// Checks that one recording alone reports nothing, and that a second one of the same party is refused.
fn check_alone(
    rt: &impl Abort,
    alloc: Global,
    session: &Session,
    recording: &[u8],
) -> Result<(), Fail> {
    let items = read(recording, &ID, 2, LAST)?;
    let audit = audit_of(alloc, session, &[(2, items)])?;
    check_counts(rt, &audit, 0, None);
    let twice = audit_of(alloc, session, &[(2, items), (2, items)]);
    assert!(rt; matches!(twice, Err(AuditFault::Twice)));
    Ok(())
}

#[test]
fn an_exchange_of_one_recording_is_not_told(rt: HostRuntime) -> Result<(), Fail> {
    let alloc = rt.alloc();
    let session = Session::read(alloc, session_of_short_chains().as_bytes())?;
    let one = sent_by(alloc, 1, 8)?;
    let recording = recording_of(alloc, 2, &[&one.case])?;
    check_alone(&rt, alloc, &session, &recording)
}
