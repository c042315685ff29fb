//! Tests of verdicts on evidence about a balanced exchange and a choice of partner. The keys were made by a Python program written from RFC
//! 8554.
ghost use Rattle.std.specs.Prelude.{◌≡◌, ◌<◌};

use bar_bytes::Steps;
use bar_hss::SessionVerifier;
use bar_judge::verdict;
use bar_roster::Session;
use bar_samples::sessions::{ID, session, session_of_five};
use bar_samples::signed::{add_words, changed, front, scheme_of, sign};
use bar_seal::LmsScheme;
use bar_seeds::SeedChain;
use bar_terms::Table;
use bar_wire::EvidenceView;
use std::alloc::{AllocError, Global};
use std::marker::Brand;
use std::process::Abort;
use std::sync::ledger::{Blank, Ledger};
use std::test::Fail;

pub(crate) fn session_of(alloc: Global, text: &str) -> Result<Session, Fail> {
    Ok(Session::read(alloc, text.as_bytes())?)
}

/// The CASE that peer 1 as responder sends peer 2 in round 6, signed with a leaf. It promises update (4, 7), and its cipher is all zeros.
fn case_of(alloc: Global, scheme: &LmsScheme, leaf: u32) -> Result<Vec<u8>, AllocError> {
    let mut bytes = front(alloc, 8, [0, 1, 0, 2], 6)?;
    bytes.extend_from_slice(&[0, 1, 1, 0])?;
    bytes.extend_from_slice(&[0; 32])?;
    add_words(&mut bytes, &[5, 0, 10, 0, 4, 0x80, 0, 0])?;
    bytes.extend_from_slice(&[0; 1024])?;
    sign(alloc, scheme, leaf, &mut bytes)?;
    Ok(bytes)
}

/// A KEY of peer 1 to peer 2 for a side of that exchange, signed with a leaf.
fn key_of(alloc: Global, scheme: &LmsScheme, role: u8, leaf: u32) -> Result<Vec<u8>, AllocError> {
    let mut bytes = front(alloc, 10, [0, 1, 0, 2], 6)?;
    bytes.extend_from_slice(&[0, role])?;
    bytes.extend_from_slice(&[0; 32])?;
    sign(alloc, scheme, leaf, &mut bytes)?;
    Ok(bytes)
}

/// The seed of round 1 of a party whose secret is 32 times one byte, in a session of this many rounds.
fn seed_of(alloc: Global, party: u16, rounds: u32, secret: u8) -> Result<[u8; 32], AllocError>
    requires { 0 < rounds }
{
    let chain = SeedChain::make(alloc, &ID, party, rounds, &[secret; 32])?;
    Ok(chain.seed(1))
}

/// The REQUEST of peer 1 to peer 2 in round 1, signed with a leaf.
fn first_of(alloc: Global, scheme: &LmsScheme, leaf: u32) -> Result<Vec<u8>, AllocError> {
    let seed = seed_of(alloc, 1, 10, 8)?;
    let mut bytes = front(alloc, 3, [0, 1, 0, 2], 1)?;
    bytes.extend_from_slice(&seed)?;
    bytes.extend_from_slice(&[0; 32])?;
    sign(alloc, scheme, leaf, &mut bytes)?;
    Ok(bytes)
}

/// The RESPONSE of peer 1 to peer 2 in round 6, with updates of the first round of its window, signed with a leaf.
fn response_of(
    alloc: Global,
    scheme: &LmsScheme,
    updates: u8,
    leaf: u32,
) -> Result<Vec<u8>, AllocError> {
    let mut bytes = front(alloc, 4, [0, 1, 0, 2], 6)?;
    add_words(&mut bytes, &[updates, 0, 0, 0])?;
    sign(alloc, scheme, leaf, &mut bytes)?;
    Ok(bytes)
}

/// A REQUEST of peer 4 in round 1, and a commitment of 32 times one byte.
fn request_of(
    alloc: Global,
    scheme: &LmsScheme,
    to: u8,
    commitment: u8,
) -> Result<Vec<u8>, AllocError> {
    let seed = seed_of(alloc, 4, 1, 10)?;
    let mut bytes = front(alloc, 3, [0, 4, 0, to], 1)?;
    bytes.extend_from_slice(&seed)?;
    bytes.extend_from_slice(&[commitment; 32])?;
    sign(alloc, scheme, 0, &mut bytes)?;
    Ok(bytes)
}

/// A datagram of a session.
#[derive(Clone, Copy)]
enum Datagram {
    /// The REQUEST of peer 1, signed with a leaf.
    First(u32),
    /// The RESPONSE of peer 1 with these updates, signed with a leaf.
    Response(u8, u32),
    /// The CASE of peer 1, signed with a leaf.
    Case(u32),
    /// The KEY of peer 1 for a side, signed with a leaf.
    Key(u8, u32),
    /// That KEY with the last byte of its signature changed.
    ChangedKey(u8, u32),
    /// The REQUEST of peer 4 to this peer, with a commitment.
    Request(u8, u8),
    /// That REQUEST with the last byte of its signature changed.
    ChangedRequest(u8, u8),
    /// The first 100 bytes of that REQUEST.
    CutRequest(u8, u8),
}

fn changed_key(
    alloc: Global,
    scheme: &LmsScheme,
    role: u8,
    leaf: u32,
) -> Result<Vec<u8>, AllocError> {
    let key = key_of(alloc, scheme, role, leaf)?;
    changed(alloc, &key)
}

fn changed_request(
    alloc: Global,
    scheme: &LmsScheme,
    to: u8,
    commitment: u8,
) -> Result<Vec<u8>, AllocError> {
    let request = request_of(alloc, scheme, to, commitment)?;
    changed(alloc, &request)
}

fn cut_request(
    alloc: Global,
    scheme: &LmsScheme,
    to: u8,
    commitment: u8,
) -> Result<Vec<u8>, AllocError> {
    let mut request = request_of(alloc, scheme, to, commitment)?;
    request.truncate(100);
    Ok(request)
}

fn bytes_of(alloc: Global, scheme: &LmsScheme, datagram: Datagram) -> Result<Vec<u8>, AllocError> {
    match datagram {
        Datagram::First(leaf) => first_of(alloc, scheme, leaf),
        Datagram::Response(updates, leaf) => response_of(alloc, scheme, updates, leaf),
        Datagram::Case(leaf) => case_of(alloc, scheme, leaf),
        Datagram::Key(role, leaf) => key_of(alloc, scheme, role, leaf),
        Datagram::ChangedKey(role, leaf) => changed_key(alloc, scheme, role, leaf),
        Datagram::Request(to, commitment) => request_of(alloc, scheme, to, commitment),
        Datagram::ChangedRequest(to, commitment) => changed_request(alloc, scheme, to, commitment),
        Datagram::CutRequest(to, commitment) => cut_request(alloc, scheme, to, commitment),
    }
}

/// The length of a datagram.
fn len_of(datagram: Datagram) -> usize {
    match datagram {
        Datagram::First(_) => 1_536,
        Datagram::Response(_, _) => 1_504,
        Datagram::Case(_) => 2_596,
        Datagram::Key(_, _) | Datagram::ChangedKey(_, _) => 1_506,
        Datagram::Request(_, _) | Datagram::ChangedRequest(_, _) => 1_376,
        Datagram::CutRequest(_, _) => 100,
    }
}

/// The line of the verdict on evidence.
fn line_with<L: Ledger>(
    alloc: Global,
    session: &Session,
    table: &Table,
    evidence: &EvidenceView<'_>,
    blank: Blank,
) -> Result<String, AllocError>
    requires name { blank.name ≡ L.name }
    requires parts { blank.parts ≡ L.parts }
    requires some { 0 < L.parts }
{
    let _ = session.shape();
    let verifier = SessionVerifier::of(session);
    let verdict = verdict(
        session,
        &verifier,
        table,
        evidence,
        &mut Steps::<L>::new(blank),
    );
    format!(in alloc; "{verdict}")
}

fn line(
    alloc: Global,
    session: &Session,
    table: &Table,
    one: &[u8],
    two: Option<&[u8]>,
) -> Result<String, AllocError> {
    let evidence = EvidenceView { one, two };
    line_with::<Brand>(alloc, session, table, &evidence, Blank::new(1))
}

/// Evidence, whether the digests of round 4 are known, and the line of the verdict.
type Row = (Datagram, Option<Datagram>, bool, &'static str);

/// The bytes of a datagram, whose length is checked.
fn checked_bytes(
    rt: &impl Abort,
    alloc: Global,
    scheme: &LmsScheme,
    datagram: Datagram,
) -> Result<Vec<u8>, AllocError> {
    let bytes = bytes_of(alloc, scheme, datagram)?;
    assert_eq!(rt; bytes.len(), len_of(datagram));
    Ok(bytes)
}

/// A table of ten rounds. If the digests of round 4 are known, they are eight times zeros.
fn table_of(rt: &impl Abort, alloc: Global, known: bool) -> Result<Table, AllocError> {
    let mut table = Table::make(alloc, 10, 8)?;
    if known {
        assert!(rt; table.extend(4, &[0; 256]));
    }
    Ok(table)
}

/// Checks the line of the verdict on evidence.
fn check_line(
    rt: &impl Abort,
    alloc: Global,
    session: &Session,
    table: &Table,
    one: &[u8],
    two: Option<&[u8]>,
    expected: &str,
) -> Result<(), AllocError> {
    let line = line(alloc, session, table, one, two)?;
    assert_eq!(rt; line.as_str(), expected);
    Ok(())
}

/// Checks the line of the verdict on a datagram, and on another one if there is any.
fn check_evidence(
    rt: &impl Abort,
    alloc: Global,
    session: &Session,
    scheme: &LmsScheme,
    table: &Table,
    one: &[u8],
    two: Option<Datagram>,
    expected: &str,
) -> Result<(), AllocError> {
    let Some(two) = two else {
        return check_line(rt, alloc, session, table, one, None, expected);
    };
    let two = checked_bytes(rt, alloc, scheme, two)?;
    check_line(rt, alloc, session, table, one, Some(&two), expected)
}

fn check_row(
    rt: &impl Abort,
    alloc: Global,
    session: &Session,
    scheme: &LmsScheme,
    row: Row,
) -> Result<(), AllocError> {
    let (one, two, known, expected) = row;
    let table = table_of(rt, alloc, known)?;
    let one = checked_bytes(rt, alloc, scheme, one)?;
    check_evidence(rt, alloc, session, scheme, &table, &one, two, expected)
}

/// Checks rows about the party of a session whose secret is 32 times one byte.
fn check_rows(
    rt: &impl Abort,
    alloc: Global,
    text: &str,
    secret: u8,
    rows: &[Row],
) -> Result<(), Fail> {
    let session = session_of(alloc, text)?;
    let scheme = scheme_of(alloc, text, secret)?;
    for row in rows {
        check_row(rt, alloc, &session, &scheme, *row)?;
    }
    Ok(())
}

/// A CASE and its KEY, or a KEY for the other side.
const OPENINGS: [Row; 6] = [
    (
        Datagram::Case(103),
        Some(Datagram::Key(1, 104)),
        true,
        "party 1 fault F1",
    ),
    (
        Datagram::Key(1, 104),
        Some(Datagram::Case(103)),
        true,
        "party 1 fault F1",
    ),
    (
        Datagram::Case(103),
        Some(Datagram::Key(1, 104)),
        false,
        "no fault: UnknownUpdate",
    ),
    (
        Datagram::Case(103),
        Some(Datagram::Key(0, 92)),
        true,
        "no fault: Consistent",
    ),
    (
        Datagram::Case(103),
        Some(Datagram::ChangedKey(1, 104)),
        true,
        "no fault: NotSigned",
    ),
    (Datagram::Case(103), None, true, "no fault: Consistent"),
];

#[test]
fn a_key_that_opens_its_briefcase_badly_is_shown(rt: HostRuntime) -> Result<(), Fail> {
    check_rows(&rt, rt.alloc(), session(), 8, &OPENINGS)
}

/// Pairs of datagrams. All but the third are signed with one leaf.
const OF_LEAVES: [Row; 5] = [
    (
        Datagram::First(0),
        Some(Datagram::Response(0, 0)),
        false,
        "party 1 fault F7",
    ),
    (
        Datagram::Response(0, 0),
        Some(Datagram::First(0)),
        false,
        "party 1 fault F7",
    ),
    (
        Datagram::First(0),
        Some(Datagram::Response(0, 6)),
        false,
        "no fault: Consistent",
    ),
    (
        Datagram::Response(0, 6),
        Some(Datagram::Response(1, 6)),
        false,
        "party 1 fault F4",
    ),
    (
        Datagram::Case(103),
        Some(Datagram::Key(1, 103)),
        true,
        "party 1 fault F7",
    ),
];

#[test]
fn a_leaf_that_signed_two_messages_is_shown(rt: HostRuntime) -> Result<(), Fail> {
    check_rows(&rt, rt.alloc(), session(), 8, &OF_LEAVES)
}

/// REQUESTS to the partner, peer 3, and to peer 5.
const CHOICES: [Row; 6] = [
    (Datagram::Request(5, 0), None, false, "party 4 fault F3"),
    (Datagram::Request(3, 0), None, false, "no fault: Consistent"),
    (
        Datagram::ChangedRequest(5, 0),
        None,
        false,
        "no fault: NotSigned",
    ),
    (
        Datagram::CutRequest(5, 0),
        None,
        false,
        "no fault: Malformed",
    ),
    (
        Datagram::Request(3, 0),
        Some(Datagram::Request(3, 1)),
        false,
        "party 4 fault F4",
    ),
    (
        Datagram::Request(3, 0),
        Some(Datagram::Request(3, 0)),
        false,
        "no fault: Consistent",
    ),
];

#[test]
fn a_request_to_another_than_the_partner_is_shown(rt: HostRuntime) -> Result<(), Fail> {
    check_rows(&rt, rt.alloc(), session_of_five(), 10, &CHOICES)
}
