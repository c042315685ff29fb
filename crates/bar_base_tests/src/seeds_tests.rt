//! Tests of seeds: test vectors from other implementations, and each public call once.

ghost use Rattle.std.specs.Prelude.{◌≡◌, ◌<◌, ◌≤◌};
ghost use Rattle.bar_session.specs.Points.{AreSeeds};

use crate::hex_bytes::bytes;
use bar_bytes::Steps;
use bar_roster::Session;
use bar_seeds::{Checkpoints, Secrets, SeedChain, commitment, partner, seed_ok};
use bar_window::{Exchange, Role, UpdateId, Window, XKind};
use std::marker::Brand;
use std::process::Abort;
use std::sync::ledger::{Blank, Ledger};
use std::test::Fail;

// The hashes of ID come from Python's hashlib.
const ID: [u8; 8] = [0x00, 0x11, 0x22, 0x33, 0x44, 0x55, 0x66, 0x77];

// 0, 1, .., 31
const SECRET: [u8; 32] = [
    0, 1, 2, 3, 4, 5, 6, 7, 8, 9, 10, 11, 12, 13, 14, 15, 16, 17, 18, 19, 20, 21, 22, 23, 24, 25,
    26, 27, 28, 29, 30, 31,
];

// (id, party, rounds, secret, anchor), made by an independent program.
const ANCHORS: [(&str, u16, u32, &str, &str); 3] = [
    (
        "0503aabbccddeeff",
        200,
        1,
        "8da85f2b03879135b858caa044e81a5dee588ce519ea7506b0dc11024ace3326",
        "8d89e61592402a68c9b31fad1ecbffc15c9523f66f712aa0fd1209eb8a3812a0",
    ),
    (
        "0604aabbccddeeff",
        1,
        10,
        "b44d718aacd12e03f086536c37e4ed6822129afb792886d50459c6d50905bcd7",
        "3350206df8911f303a222ff68a0d87ef19ee7998e9e16158b9583de27ef7cb95",
    ),
    (
        "0704aabbccddeeff",
        3,
        1820,
        "ec71b63be08df8d680e1bab4f71ca1e81351f78a933b6135b1d993bec8b3ecb8",
        "d9b5fefbbe2c79d5dbe85e1a7d5d842bf74a5ca294d78dd4b81b5fc087f0ab4f",
    ),
];

fn is_seed_from<L: Ledger>(
    id: &[u8; 8],
    anchor: &[u8; 32],
    party: u16,
    round: u32,
    seed: &[u8; 32],
    blank: Blank,
) -> bool
    requires name { blank.name ≡ L.name }
    requires parts { blank.parts ≡ L.parts }
    requires some { 0 < L.parts }
{
    seed_ok(id, anchor, party, round, seed, &mut Steps::<L>::new(blank))
}

fn is_seed(id: &[u8; 8], anchor: &[u8; 32], party: u16, round: u32, seed: &[u8; 32]) -> bool {
    is_seed_from::<Brand>(id, anchor, party, round, seed, Blank::new(1))
}

/// Checks that a seed of a round leads to the anchor, and isn't one of the round before or of the next party.
fn check_seed(
    rt: &impl Abort,
    id: &[u8; 8],
    anchor: &[u8; 32],
    party: u16,
    round: u32,
    seed: &[u8; 32],
) {
    assert!(rt; is_seed(id, anchor, party, round, seed), "{round}");
    assert!(rt;
        !is_seed(id, anchor, party, round.saturating_sub(1), seed),
        "{round}"
    );
    assert!(rt;
        !is_seed(id, anchor, party.saturating_add(1), round, seed),
        "{round}"
    );
}

#[test]
fn chains_meet_others_anchors(rt: HostRuntime) -> Result<(), Fail> {
    for (id, party, rounds, secret, wanted) in ANCHORS {
        let (id, secret) = (bytes::<8>(id)?, bytes::<32>(secret)?);
        let chain = SeedChain::make(rt.alloc(), &id, party, rounds, &secret)?;
        let anchor = chain.anchor();
        assert_eq!(rt; anchor, bytes::<32>(wanted)?);
        check_seed(&rt, &id, &anchor, party, 1, &chain.seed(1));
        check_seed(&rt, &id, &anchor, party, rounds, &chain.seed(rounds));
    }
    Ok(())
}

// A session of two peers over ten rounds; the anchors of both follow.
const SESSION: &str = "version = 1
id = \"0604aabbccddeeff\"
rounds = 10
life = 2
cap = 1
per_round = 1
port = 1024
tick_ms = 1
lms = 6
ots = 1
fanout = 1
key = \"0000000600000001111111111111111111111111111111111111111111111111111111111111111111111111111111111111111111111111\"

[[peer]]
key = \"0000000600000001111111111111111111111111111111111111111111111111111111111111111111111111111111111111111111111112\"
anchor = \"3350206df8911f303a222ff68a0d87ef19ee7998e9e16158b9583de27ef7cb95\"

[[peer]]
key = \"0000000600000001111111111111111111111111111111111111111111111111111111111111111111111111111111111111111111111113\"
anchor = \"0000000000000000000000000000000000000000000000000000000000000000\"
";

fn is_known_from<L: Ledger>(
    session: &Session,
    points: &mut Checkpoints,
    round: u32,
    seed: &[u8; 32],
    blank: Blank,
) -> bool
    requires name { blank.name ≡ L.name }
    requires parts { blank.parts ≡ L.parts }
    requires some { 0 < L.parts }
    requires peers { 1 ≤ session.now.shape.peers }
    requires kept { AreSeeds session.now points.old }
    ensures { AreSeeds session.now points.new }
{
    session.is_known_seed(1, round, seed, points, &mut Steps::<L>::new(blank))
}

/// Whether `seed` is peer 1's seed of a round, by the checkpoints of the peers' seeds.
fn is_known(session: &Session, points: &mut Checkpoints, round: u32, seed: &[u8; 32]) -> bool
    requires peers { 1 ≤ session.now.shape.peers }
    requires kept { AreSeeds session.now points.old }
    ensures { AreSeeds session.now points.new }
{
    is_known_from::<Brand>(session, points, round, seed, Blank::new(1))
}

/// A row: a round, a seed, and whether it is that of the round.
type Row = (u32, [u8; 32], bool);

/// Checks for each row in order whether its seed is that of its round.
fn check_seeds(rt: &impl Abort, session: &Session, points: &mut Checkpoints, rows: &[Row])
    requires peers { 1 ≤ session.now.shape.peers }
    requires kept { AreSeeds session.now points.old }
{
    for (round, seed, wanted) in rows {
        assert!(rt;
            is_known(session, points, *round, seed) == *wanted,
            "{round}"
        );
    }
}

/// Rows for the seeds of the rounds 5 to 7, in the order in which they arrive.
fn rows_of([fifth, sixth, seventh]: [[u8; 32]; 3]) -> [Row; 7] {
    let mut wrong = seventh;
    wrong[0] ^= 1;
    [
        (5, fifth, true),
        (7, seventh, true),
        (7, seventh, true),
        (7, wrong, false),
        (6, seventh, false),
        (6, sixth, true),
        (8, seventh, false),
    ]
}

// A later seed is tested from the last that was accepted, an earlier or wrong one from the anchor.
#[test]
fn seeds_are_known_in_any_order(rt: HostRuntime) -> Result<(), Fail> {
    let (id, _, _, secret, _) = ANCHORS[1];
    let (id, secret) = (bytes::<8>(id)?, bytes::<32>(secret)?);
    let chain = SeedChain::make(rt.alloc(), &id, 1, 10, &secret)?;
    let rows = rows_of([chain.seed(5), chain.seed(6), chain.seed(7)]);
    let session = Session::read(rt.alloc(), SESSION.as_bytes())?;
    let mut points = session.checkpoints(rt.alloc())?;
    assert!(rt; session.shape().peers == 2);
    check_seeds(&rt, &session, &mut points, &rows);
    Ok(())
}

// The partner that a seed of one repeated byte gives a peer, or 0 if there is no such peer.
fn partner_by(byte: u8, kind: XKind, me: u16, peers: u16) -> u16 {
    if peers < 2 || me < 1 || me > peers {
        return 0;
    }
    partner(&ID, &[byte; 32], kind, me, peers)
}

// (the byte that the seed repeats, kind, me, peers, partner)
const PARTNERS: [(u8, XKind, u16, u16, u16); 10] = [
    (0, XKind::Balanced, 1, 2, 2),
    (0, XKind::Balanced, 2, 2, 1),
    (0, XKind::Balanced, 3, 5, 5),
    (0, XKind::Balanced, 5, 5, 4),
    (2, XKind::Push, 1, 5, 2),
    (2, XKind::Push, 5, 5, 1),
    (2, XKind::Balanced, 3, 5, 4),
    (5, XKind::Push, 3, 5, 2),
    (0, XKind::Balanced, 7, 200, 124),
    (0, XKind::Balanced, 200, 200, 123),
];

#[test]
fn partners_are_as_the_seed_says(rt: HostRuntime) {
    for (byte, kind, me, peers, wanted) in PARTNERS {
        assert_eq!(rt; partner_by(byte, kind, me, peers), wanted, "{byte} {me}");
    }
}

/// An exchange of party 258.
const PUSH: Exchange = Exchange {
    round: 7,
    kind: XKind::Push,
    initiator: 258,
    responder: 3,
};

#[test]
fn a_secret_gives_nonces_and_keys(rt: HostRuntime) -> Result<(), Fail> {
    let secrets = Secrets {
        id: ID,
        party: 258,
        secret: SECRET,
    };
    let rows = [
        (
            secrets.nonce(PUSH),
            "1eade7bdd3bd7a6090aa6df68b7062d74b81c7ccb548d1f4e66bf1c6292e2165",
        ),
        (
            secrets.key(PUSH, Role::Initiator),
            "764c5a86aa23fa3b96f00fa4992f7cba1449151dae00a8032e7a775a2da07c01",
        ),
        (
            secrets.key(PUSH, Role::Responder),
            "3d69c0e969372a6e949d024ee9a4b28117090cf19cadf42ea51614f40ffb0939",
        ),
    ];
    for (hash, wanted) in rows {
        assert_eq!(rt; hash, bytes::<32>(wanted)?);
    }
    Ok(())
}

// A history of updates (5, 1) and (7, 63), in a session with a life of three rounds.
#[test]
fn commitments_hash_the_history(rt: HostRuntime) -> Result<(), Fail> {
    let wanted = bytes::<32>("682bb42f13fbd1d7bf0dc4c96a85cdb78d8111cae29306eaae03e7f659515334")?;
    let mut history = Window::empty(7, 3, false);
    history.put(UpdateId { round: 5, index: 1 });
    history.put(UpdateId {
        round: 7,
        index: 63,
    });
    assert_eq!(rt; commitment(&ID, PUSH, &SECRET, &history, 3), wanted);
    Ok(())
}
