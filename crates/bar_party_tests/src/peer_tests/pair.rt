//! Two peers for tests, the datagrams between them, and those that both are given.
use super::datagrams::manifest;
use super::peers::{answers, peer_of, sent_at_tick, tell, ticks};
use crate::requests::request_front;
use crate::sends::Sent;
use bar_hss::SessionScheme;
use bar_ledger::Totals;
use bar_peer::Peer;
use bar_samples::signed::scheme_of;
use bar_seal::LmsScheme;
use bar_window::Exchange;
use bar_wire::Kind;
use std::alloc::{AllocError, Global};
use std::process::Abort;
use std::test::Fail;

/// The peers 1 and 2 of a session, and the signature scheme of its broadcaster.
#[derive(Drop)]
pub struct Pair {
    pub caster: LmsScheme,
    pub one: Peer<SessionScheme>,
    pub two: Peer<SessionScheme>,
}

pub fn pair_of(alloc: Global, session: &str) -> Result<Pair, Fail> {
    Ok(Pair {
        caster: scheme_of(alloc, session, 7)?,
        one: peer_of(alloc, session, 1, 8)?,
        two: peer_of(alloc, session, 2, 9)?,
    })
}

/// Both peers take `count` ticks, and nothing is delivered.
pub fn pass(rt: &impl Abort, alloc: Global, pair: &mut Pair, count: u8) -> Result<(), AllocError> {
    ticks(rt, alloc, &mut pair.one, count)?;
    ticks(rt, alloc, &mut pair.two, count)?;
    Ok(())
}

/// Gives both peers the manifest of `count` updates of a round.
pub fn tell_round(
    rt: &impl Abort,
    alloc: Global,
    pair: &mut Pair,
    round: u8,
    count: u8,
) -> Result<(), AllocError> {
    let bytes = manifest(alloc, &pair.caster, round, count)?;
    tell(rt, alloc, &mut pair.one, &bytes)?;
    tell(rt, alloc, &mut pair.two, &bytes)
}

/// A step of an exchange: a party is given a datagram, by its index among those sent so far. It sends datagrams of these kinds and lengths,
/// which are added to those sent.
pub type Row = (u16, usize, &'static [(Kind, usize)]);

/// Whether a datagram of this kind and length is sent to this party.
fn is_sent(sent: &Sent, to: u16, kind: Kind, len: usize) -> bool {
    sent.to == to && sent.bytes.len() == len && sent.bytes.get(3) == Some(&kind.code())
}

/// Whether datagrams of these kinds and lengths are sent to this party, and no others.
fn are_sent(sends: &[Sent], to: u16, kinds: &[(Kind, usize)]) -> bool {
    let mut all = sends.len() == kinds.len();
    for (sent, (kind, len)) in sends.iter().zip(kinds) {
        all = all && is_sent(sent, to, *kind, *len);
    }
    all
}

fn add_all(all: &mut Vec<Vec<u8>>, sends: Vec<Sent>) -> Result<(), AllocError> {
    for sent in sends {
        all.push(sent.bytes)?;
    }
    Ok(())
}

/// What one of two peers sends in answer to a datagram.
fn answers_of(
    rt: &impl Abort,
    alloc: Global,
    one: &mut Peer<SessionScheme>,
    two: &mut Peer<SessionScheme>,
    party: u16,
    datagram: &[u8],
) -> Result<Vec<Sent>, AllocError> {
    if party == 1 {
        answers(rt, alloc, one, datagram)
    } else {
        answers(rt, alloc, two, datagram)
    }
}

/// Delivers the datagrams of an exchange by rows, and returns all that were sent, in order, from the first on.
pub fn give_in_turn(
    rt: &impl Abort,
    alloc: Global,
    pair: &mut Pair,
    first: Vec<u8>,
    rows: &[Row],
) -> Result<Vec<Vec<u8>>, AllocError> {
    let mut all = Vec::new(alloc);
    all.push(first)?;
    for (row, (party, place, kinds)) in rows.iter().enumerate() {
        let Some(datagram) = all.get(*place) else {
            panic!(rt; "row {row} gives what was not sent");
        };
        let sends = answers_of(rt, alloc, &mut pair.one, &mut pair.two, *party, datagram)?;
        assert!(rt;
            are_sent(&sends, 3u16.saturating_sub(*party), kinds),
            "row {row}"
        );
        add_all(&mut all, sends)?;
    }
    Ok(all)
}

/// The datagrams of the exchange that peer 2 begins at the next tick.
pub fn trade(
    rt: &impl Abort,
    alloc: Global,
    pair: &mut Pair,
    round: u8,
    rows: &[Row],
) -> Result<Vec<Vec<u8>>, AllocError> {
    ticks(rt, alloc, &mut pair.one, 1)?;
    let front = request_front(alloc, [0, 2, 0, 1], round)?;
    let request = sent_at_tick(rt, alloc, &mut pair.two, &front)?;
    give_in_turn(rt, alloc, pair, request, rows)
}

/// The bytes of a window of four rounds, each word given by its lowest byte.
fn window(rows: [u8; 4]) -> [u8; 32] {
    let [a, b, c, d] = rows;
    [
        0, 0, 0, 0, 0, 0, 0, a, 0, 0, 0, 0, 0, 0, 0, b, 0, 0, 0, 0, 0, 0, 0, c, 0, 0, 0, 0, 0, 0,
        0, d,
    ]
}

/// Some bytes of a datagram of an exchange, by the datagram's index.
pub fn part(all: &[Vec<u8>], place: usize, from: usize, len: usize) -> Option<&[u8]> {
    let datagram = all.get(place)?;
    datagram.get(from..)?.get(..len)
}

/// Checks the rows of a window at an offset of a datagram.
pub fn check_window(rt: &impl Abort, all: &[Vec<u8>], place: usize, from: usize, rows: [u8; 4]) {
    let expected = window(rows);
    assert_eq!(rt;
        part(all, place, from, 32),
        Some(expected.as_slice()),
        "datagram {place}"
    );
}

fn check_totals_of(rt: &impl Abort, peer: &Peer<SessionScheme>, x: Exchange, totals: Totals) {
    assert_eq!(rt; peer.totals(x), totals);
}

/// Checks that each side promised, received and opened `count` updates in an exchange.
pub fn check_totals(rt: &impl Abort, pair: &Pair, x: Exchange, count: u8) {
    let totals = Totals {
        promised: count,
        received: count,
        opened: count,
    };
    check_totals_of(rt, &pair.one, x, totals);
    check_totals_of(rt, &pair.two, x, totals);
}
