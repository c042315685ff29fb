//! Changed bytes for each call that reads files. Accepted bytes are encoded again.
ghost use Rattle.std.specs.Prelude.{◌≡◌, ◌<◌, ◌≤◌, length};
ghost use Rattle.bar_rules.specs.Verifiers.{IsVerifierOf, NamesLeavesOf};
ghost use Rattle.bar_hss.specs.Chosen.{accepted_with, leaf_with, length_with};
ghost use Rattle.bar_record.specs.Recording.{IsInRange};
ghost use Rattle.bar_wire.specs.Inputs.{plain_input};

use crate::fuzz::counting::{Readers, Trials, add_one, may_cost};
use crate::fuzz::spelling::read_again;
use crate::fuzz::stop::Stop;
use bar_bytes::Steps;
use bar_hss::SessionVerifier;
use bar_judge::{First, TableFault, Verdict, add_entry, first_of, read_all, read_table, verdict};
use bar_record::{entry, head};
use bar_roster::{KeyData, KeyFile, KeyFileFault, Session, SessionFault, read_key};
use bar_terms::Table;
use bar_wire::{EvidenceView, Input, LARGEST_DATAGRAM, Shape, split_evidence};
use std::alloc::{AllocError, Global};
use std::marker::Brand;
use std::sync::ledger::{Blank, Ledger};

// ---- evidence and verdicts

/// The evidence of one or two datagrams, in the file format.
pub fn joined(alloc: Global, one: &[u8], two: Option<&[u8]>) -> Result<Vec<u8>, AllocError> {
    let mut bytes = Vec::new(alloc);
    bytes.push(if two.is_some() { 2 } else { 1 })?;
    for datagram in [Some(one), two] {
        let Some(datagram) = datagram else {
            continue;
        };
        let len = u16::try_from(datagram.len()).unwrap_or(0);
        bytes.extend_from_slice(&len.to_be_bytes())?;
        bytes.extend_from_slice(datagram)?;
    }
    Ok(bytes)
}

/// The verifier of a session's signatures.
fn verifier_of(session: &Session) -> SessionVerifier
    ensures verifies { IsVerifierOf session.now (accepted_with result) }
    ensures names { NamesLeavesOf session.now (leaf_with result) (length_with result) }
{
    let _ = session.shape();
    SessionVerifier::of(session)
}

fn verdict_counted<L: Ledger>(
    session: &Session,
    table: &Table,
    evidence: &EvidenceView<'_>,
    blank: Blank,
) -> Verdict
    requires name { blank.name ≡ L.name }
    requires parts { blank.parts ≡ L.parts }
    requires some { 0 < L.parts }
{
    let verifier = verifier_of(session);
    verdict(
        session,
        &verifier,
        table,
        evidence,
        &mut Steps::<L>::new(blank),
    )
}

fn judged(session: &Session, table: &Table, evidence: &EvidenceView<'_>) -> Verdict {
    verdict_counted::<Brand>(session, table, evidence, Blank::new(1))
}

/// One in this many pieces of evidence may be verified.
const ONE_JUDGED_IN: u64 = 20;

/// Judges evidence, unless too much was verified. It counts as accepted if it shows a fault.
fn try_verdict(session: &Session, table: &Table, evidence: &EvidenceView<'_>, trials: &mut Trials) {
    if read_all(evidence, &session.shape()).is_some() {
        if !may_cost(trials.costly, trials.tried, ONE_JUDGED_IN) {
            return;
        }
        add_one(&mut trials.costly);
    }
    let shown = judged(session, table, evidence);
    trials.add(matches!(shown, Verdict::Shown { .. }));
}

/// Splits bytes as evidence, and has it judged.
pub fn try_evidence(
    alloc: Global,
    bytes: &[u8],
    session: &Session,
    table: &Table,
    readers: &mut Readers,
) -> Result<(), Stop> {
    let Ok(view) = split_evidence(bytes) else {
        readers.evidence.add(false);
        return Ok(());
    };
    readers.evidence.add(true);
    let again = joined(alloc, view.one, view.two)?;
    if again.as_slice() != bytes {
        return Err(Stop::Found("evidence is joined otherwise"));
    }
    try_verdict(session, table, &view, &mut readers.verdict);
    Ok(())
}

// ---- tables

fn read_counted<L: Ledger>(
    alloc: Global,
    bytes: &[u8],
    session: &Session,
    blank: Blank,
) -> Result<Table, TableFault>
    requires name { blank.name ≡ L.name }
    requires parts { blank.parts ≡ L.parts }
    requires some { 0 < L.parts }
{
    let verifier = verifier_of(session);
    read_table(
        alloc,
        bytes,
        session,
        &verifier,
        &mut Steps::<L>::new(blank),
    )
}

/// The table of a file, if the file is valid.
pub fn table_of(alloc: Global, bytes: &[u8], session: &Session) -> Result<Option<Table>, Stop> {
    match read_counted::<Brand>(alloc, bytes, session, Blank::new(1)) {
        Ok(table) => Ok(Some(table)),
        Err(TableFault::BadEntry { .. }) => Ok(None),
        Err(TableFault::NoMemory) => Err(Stop::NoMemory),
    }
}

/// The table file of the manifests in a table file, each of them decoded and encoded again.
fn table_again(
    alloc: Global,
    bytes: &[u8],
    shape: &Shape,
    out: &mut [u8],
) -> Result<Vec<u8>, Stop> {
    let mut again = Vec::new(alloc);
    let mut rest = bytes;
    for _ in 0..bytes.len() + 1 {
        let First::Entry(manifest, others) = first_of(rest) else {
            return Ok(again);
        };
        if read_again(manifest, shape, out)?.is_err() {
            return Err(Stop::Found("an accepted manifest isn't read"));
        }
        if manifest.len() > 65_535 {
            return Err(Stop::Found("a manifest is longer than a datagram"));
        }
        add_entry(&mut again, manifest)?;
        rest = others;
    }
    Ok(again)
}

/// In one of this many table files a manifest may be verified.
const ONE_TABLE_IN: u64 = 20;

/// Whether the first entry decodes as a datagram, so that it may be verified.
fn has_entry(bytes: &[u8], shape: &Shape, out: &mut [u8]) -> Result<bool, Stop> {
    match first_of(bytes) {
        First::Entry(manifest, _) => Ok(read_again(manifest, shape, out)?.is_ok()),
        First::NoByte | First::NoEntry => Ok(false),
    }
}

/// Reads bytes as a table file, unless too many were verified.
pub fn try_table(
    alloc: Global,
    bytes: &[u8],
    session: &Session,
    out: &mut [u8],
    trials: &mut Trials,
) -> Result<(), Stop> {
    if has_entry(bytes, &session.shape(), out)? {
        if !may_cost(trials.costly, trials.tried, ONE_TABLE_IN) {
            return Ok(());
        }
        add_one(&mut trials.costly);
    }
    let Some(_table) = table_of(alloc, bytes, session)? else {
        trials.add(false);
        return Ok(());
    };
    trials.add(true);
    let again = table_again(alloc, bytes, &session.shape(), out)?;
    if again.as_slice() != bytes {
        return Err(Stop::Found("a table is spelled otherwise"));
    }
    Ok(())
}

// ---- recordings

/// Appends the entry of an input, written to a buffer first.
fn add_entry_of(input: &Input<'_>, bytes: &mut Vec<u8>, room: &mut [u8]) -> Result<(), AllocError>
    requires room { 65510 ≤ length room.old }
    requires datagram { IsInRange (plain_input input.now) }
{
    let len = entry(input, room);
    bytes.extend_from_slice(room.get(..len).unwrap_or(b""))?;
    Ok(())
}

/// Appends the entry of an input. The buffer must be large enough for the largest entry.
pub fn add_input(input: &Input<'_>, bytes: &mut Vec<u8>, room: &mut [u8]) -> Result<(), Stop> {
    if room.len() < usize::from(LARGEST_DATAGRAM) + 3 {
        return Err(Stop::Found("a room is too small for an entry"));
    }
    match input {
        Input::Tick => Ok(add_entry_of(&Input::Tick, bytes, room)?),
        Input::Datagram(datagram) => {
            if datagram.len() > usize::from(LARGEST_DATAGRAM) {
                return Err(Stop::Found("an input is longer than a datagram"));
            }
            Ok(add_entry_of(&Input::Datagram(datagram), bytes, room)?)
        }
    }
}

/// Reads bytes as the recording of a party.
pub fn try_recording(
    alloc: Global,
    bytes: &[u8],
    shape: &Shape,
    party: u16,
    last: u32,
    room: &mut [u8],
    trials: &mut Trials,
) -> Result<(), Stop> {
    let Ok(items) = bar_record::read(bytes, &shape.id, party, last) else {
        trials.add(false);
        return Ok(());
    };
    trials.add(true);
    let mut again = head(&shape.id, party).to_vec(alloc)?;
    for input in items {
        add_input(&input, &mut again, room)?;
    }
    again.push(0)?;
    if again.as_slice() != bytes {
        return Err(Stop::Found("a recording is spelled otherwise"));
    }
    Ok(())
}

// ---- sessions

/// The line of the type of the upper tree, if the keys have two levels.
fn top_line(alloc: Global, session: &Session) -> Result<String, AllocError> {
    match session.top() {
        Some(top) => format!(in alloc; "top = {top}\n"),
        None => Ok(String::new(alloc)),
    }
}

/// The lines of a session's text before those of its peers.
fn first_lines(alloc: Global, session: &Session) -> Result<String, AllocError> {
    let shape = session.shape();
    let params = session.params();
    let (version, life, per_round) = (shape.version, shape.life, shape.per_round);
    let (cap, fanout) = (session.cap(), session.fanout());
    let (port, tick_ms) = (session.port(), session.tick_ms());
    let (lms, ots, rounds) = (params.lms(), params.ots(), shape.rounds);
    let id = hex::encode(alloc, shape.id.as_slice())?;
    let key = hex::encode(alloc, session.key(0))?;
    let top = top_line(alloc, session)?;
    format!(in alloc;
        "version = {version}\nid = \"{id}\"\nrounds = {rounds}\nlife = {life}\ncap = {cap}\nper_round = {per_round}\n\
        {top}fanout = {fanout}\nport = {port}\ntick_ms = {tick_ms}\nlms = {lms}\nots = {ots}\nkey = \"{key}\"\n"
    )
}

/// The lines of a peer in a session's text.
fn peer_lines(alloc: Global, session: &Session, peer: u16) -> Result<String, Stop> {
    let peers = session.shape().peers;
    if peer < 1 || peer > peers {
        return Err(Stop::Found("a session has no such peer"));
    }
    let key = hex::encode(alloc, session.key(peer))?;
    let anchor = hex::encode(alloc, session.anchor(peer).as_slice())?;
    Ok(format!(in alloc; "[[peer]]\nkey = \"{key}\"\nanchor = \"{anchor}\"\n")?)
}

/// The text of a session, made from its values.
pub fn session_text(alloc: Global, session: &Session) -> Result<String, Stop> {
    let mut text = first_lines(alloc, session)?;
    for before in 0..session.shape().peers {
        let lines = peer_lines(alloc, session, before + 1)?;
        text.push_str(lines.as_str())?;
    }
    Ok(text)
}

/// The session of a text, if it is one.
fn session_in(alloc: Global, bytes: &[u8]) -> Result<Option<Session>, Stop> {
    match Session::read(alloc, bytes) {
        Ok(session) => Ok(Some(session)),
        Err(SessionFault::NoMemory) => Err(Stop::NoMemory),
        Err(_) => Ok(None),
    }
}

/// Reads bytes as a session's text. The text of an accepted session must read as the same session.
pub fn try_session(alloc: Global, bytes: &[u8], trials: &mut Trials) -> Result<(), Stop> {
    let Some(session) = session_in(alloc, bytes)? else {
        trials.add(false);
        return Ok(());
    };
    trials.add(true);
    let text = session_text(alloc, &session)?;
    let Some(again) = session_in(alloc, text.as_bytes())? else {
        return Err(Stop::Found("the text of an accepted session is refused"));
    };
    let twice = session_text(alloc, &again)?;
    if twice.as_bytes() != text.as_bytes() {
        return Err(Stop::Found("a session is spelled otherwise"));
    }
    Ok(())
}

// ---- keys

/// A key may be made from one of this many key texts.
const ONE_KEY_IN: u64 = 200;

/// Whether two keys have the same data.
fn are_same(one: &KeyData, two: &KeyData) -> bool {
    one.party == two.party
        && one.id == two.id
        && one.rounds == two.rounds
        && one.lms == two.lms
        && one.ots == two.ots
        && one.top == two.top
        && one.secret == two.secret
        && one.spent == two.spent
}

/// Checks that the text of a key reads as the same key, and that this key gives the same text again.
fn check_key(alloc: Global, key: &KeyData, session: &Session) -> Result<(), Stop> {
    let text = key.text(alloc)?;
    let Ok(again) = read_key(alloc, &text, session, false) else {
        return Err(Stop::Found("the text of an accepted key is refused"));
    };
    if !are_same(key, &again) {
        return Err(Stop::Found("the text of a key says another key"));
    }
    if again.text(alloc)?.as_slice() != text.as_slice() {
        return Err(Stop::Found("a key is spelled otherwise"));
    }
    if session.top().is_some() {
        return Err(Stop::Found("keys of one level are tried"));
    }
    let read = KeyFile::read(alloc, &text, session, false, false);
    if !matches!(read, Ok(_)) {
        return Err(Stop::Found("the text of an accepted key is refused"));
    }
    Ok(())
}

/// Reads bytes as the key text of a peer of a session, unless too many keys were made.
pub fn try_key(
    alloc: Global,
    bytes: &[u8],
    session: &Session,
    trials: &mut Trials,
) -> Result<(), Stop> {
    if session.top().is_some() {
        return Err(Stop::Found("keys of one level are tried"));
    }
    let told = read_key(alloc, bytes, session, false);
    if told.is_ok() {
        if !may_cost(trials.costly, trials.tried, ONE_KEY_IN) {
            return Ok(());
        }
        add_one(&mut trials.costly);
    }
    match KeyFile::read(alloc, bytes, session, false, false) {
        Ok(_) => trials.add(true),
        Err(KeyFileFault::NoMemory) => return Err(Stop::NoMemory),
        Err(_) => {
            trials.add(false);
            return Ok(());
        }
    }
    let Ok(key) = told else {
        return Err(Stop::Found("a key is accepted that isn't read"));
    };
    check_key(alloc, &key, session)
}
