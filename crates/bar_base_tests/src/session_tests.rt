use bar_lms::{Height, Ots, Params};
use bar_roster::{Key, Session, SessionFault};
use bar_wire::Shape;
use std::alloc::{AllocError, Global};
use std::process::Abort;
use std::test::Fail;

const ID: [u8; 8] = [0x00, 0x11, 0x22, 0x33, 0x44, 0x55, 0x66, 0xab];

/// The numbers of the smallest session.
const NUMBERS: &str =
    "version = 1\nid = \"00112233445566aB\"\nrounds = 1\nlife = 2\ncap = 3\nper_round = 4\nport = 1024\ntick_ms = 5\nlms = 5\nots = 4\nfanout = 1\n";

/// The public key of a party: its types, which are given in hex, and the party's number.
fn key_line(alloc: Global, front: &str, party: u16) -> Result<String, AllocError> {
    format!(in alloc; "key = \"{front}{party:096x}\"\n")
}

/// The entry of a peer, whose anchor is its number.
fn entry(alloc: Global, front: &str, peer: u16) -> Result<String, AllocError> {
    let key = key_line(alloc, front, peer)?;
    format!(in alloc; "[[peer]]\n{key}anchor = \"{peer:064x}\"\n")
}

/// The text of a session with these numbers and so many peers, whose public keys begin with `front`.
fn with_parties(
    alloc: Global,
    numbers: &str,
    front: &str,
    peers: u16,
) -> Result<String, AllocError> {
    let mut text = String::from_str(alloc, numbers)?;
    text.push_str(key_line(alloc, front, 0)?.as_str())?;
    for peer in 1..=peers {
        text.push_str(entry(alloc, front, peer)?.as_str())?;
    }
    Ok(text)
}

/// A copy of the session of a text.
fn copy_of(alloc: Global, text: &str) -> Result<Session, Fail> {
    Ok(Session::read(alloc, text.as_bytes())?.copied(alloc)?)
}

/// Checks the public key of a party.
fn check_key(rt: &impl Abort, session: &Session, party: u16, key: &[u8]) {
    let peers = session.shape().peers;
    assert!(rt; party <= peers);
    assert!(rt; session.key(party) == key, "party {party}");
}

/// Checks the anchor of a peer.
fn check_anchor(rt: &impl Abort, session: &Session, peer: u16, anchor: &[u8; 32]) {
    let peers = session.shape().peers;
    assert!(rt; 1 <= peer && peer <= peers);
    assert!(rt; session.anchor(peer) == anchor, "peer {peer}");
}

/// The public key of a party of the smallest session.
fn small_key(party: u8) -> [u8; 56] {
    let mut key = [0; 56];
    key[3] = 5;
    key[7] = 4;
    key[55] = party;
    key
}

/// The anchor of a peer.
fn anchor(peer: u8) -> [u8; 32] {
    let mut anchor = [0; 32];
    anchor[31] = peer;
    anchor
}

/// Checks the numbers of the smallest session.
fn check_smallest(rt: &impl Abort, session: &Session) {
    let wanted = Shape {
        version: 1,
        id: ID,
        peers: 2,
        rounds: 1,
        life: 2,
        per_round: 4,
        sig_len: 1292,
    };
    assert_eq!(rt; session.shape(), wanted);
    assert!(rt; session.cap() == 3 && session.fanout() == 1);
    assert!(rt; session.port() == 1024 && session.tick_ms() == 5);
    let params = Params {
        height: Height::H5,
        ots: Ots::W8,
    };
    assert_eq!(rt; session.params(), params);
}

#[test]
fn the_smallest_session_is_read_and_copied(rt: HostRuntime) -> Result<(), Fail> {
    let text = with_parties(rt.alloc(), NUMBERS, "0000000500000004", 2)?;
    let session = copy_of(rt.alloc(), text.as_str())?;
    check_smallest(&rt, &session);
    for party in 0..=2u8 {
        check_key(&rt, &session, party.into(), &small_key(party));
    }
    check_anchor(&rt, &session, 1, &anchor(1));
    check_anchor(&rt, &session, 2, &anchor(2));
    Ok(())
}

/// The text of a session of so many rounds and peers.
fn large_text(alloc: Global, rounds: u32, peers: u16) -> Result<String, AllocError> {
    let numbers = format!(in alloc;
        "version = 1\nid = \"00112233445566ab\"\nrounds = {rounds}\nlife = 10\ncap = 8\nper_round = 32\nport = 20000\ntick_ms = 250\nlms = 6\nots = 4\nfanout = 4\n"
    )?;
    with_parties(alloc, numbers.as_str(), "0000000600000004", peers)
}

/// Rounds, peers and the fault of such a session.
const LARGE: [(u32, u16, Option<SessionFault>); 5] = [
    (50, 40, None),
    (56, 40, None),
    (50, 200, None),
    (50, 201, Some(SessionFault::BadValue(Key::Peers))),
    (
        57,
        40,
        Some(SessionFault::TooFewLeaves {
            need: 1026,
            have: 1024,
        }),
    ),
];

#[test]
fn sessions_of_many_peers_are_read(rt: HostRuntime) -> Result<(), Fail> {
    let alloc = rt.alloc();
    for (rounds, peers, fault) in LARGE {
        let text = large_text(alloc, rounds, peers)?;
        let found = Session::read(alloc, text.as_bytes()).err();
        assert_eq!(rt; found, fault, "{rounds} rounds, {peers} peers");
    }
    Ok(())
}

#[test]
fn missing_memory_is_shown(rt: HostRuntime) -> Result<(), Fail> {
    let text = format!(in rt.alloc(); "{}", SessionFault::NoMemory)?;
    assert!(rt; text.as_str() == "no memory");
    Ok(())
}

/// The numbers of a session whose signatures have two levels.
fn long_numbers(alloc: Global, top: u32, rounds: u32, ots: u32) -> Result<String, AllocError> {
    format!(in alloc;
        "version = 1\nid = \"00112233445566ab\"\ntop = {top}\nrounds = {rounds}\nlife = 2\ncap = 3\nper_round = 4\nport = 1024\ntick_ms = 5\nlms = 5\nots = {ots}\nfanout = 1\n"
    )
}

/// Checks the numbers of a session of two levels that differ from session to session.
fn check_long(rt: &impl Abort, session: &Session, top: u32, rounds: u32, ots: u32, sig_len: usize) {
    assert!(rt; session.shape().rounds == rounds && session.shape().sig_len == sig_len);
    assert!(rt; session.top() == Some(top));
    assert!(rt; session.params().lms() == 5 && session.params().ots() == ots);
    assert!(rt; session.upper().map(|types| types.lms()) == Some(top));
}

/// The public key of a party of two levels, whose first bytes are given in hex.
fn long_key(front: &str, party: u8) -> Result<[u8; 60], Fail> {
    let mut key = [0; 60];
    hex::decode_to_slice(front, &mut key[..12])?;
    key[59] = party;
    Ok(key)
}

#[test]
fn a_session_of_two_levels_is_read_and_copied(rt: HostRuntime) -> Result<(), Fail> {
    let alloc = rt.alloc();
    for (top, rounds, ots, front, sig_len) in [
        (6, 1820, 4, "000000020000000600000004", 2804),
        (7, 7200, 3, "000000020000000700000003", 5076),
    ] {
        let key = long_key(front, 2)?;
        let numbers = long_numbers(alloc, top, rounds, ots)?;
        let text = with_parties(alloc, numbers.as_str(), front, 2)?;
        let session = copy_of(alloc, text.as_str())?;
        check_long(&rt, &session, top, rounds, ots, sig_len);
        check_key(&rt, &session, 2, &key);
    }
    Ok(())
}
