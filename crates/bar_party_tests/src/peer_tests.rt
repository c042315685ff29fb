//! Tests of a whole peer and its partner in a trade: what they hold, play, send and report. The expected values are worked out by hand from
//! the rules. Replays of the built program test other exchanges.

pub mod datagrams;
pub mod pair;
pub mod peers;

use crate::requests::request;
use bar_samples::sessions::session;
use bar_samples::signed::scheme_of;
use bar_window::{Exchange, XKind};
use bar_wire::Kind;
use datagrams::tell_blocks;
use pair::{Pair, Row, check_totals, check_window, pair_of, part, pass, tell_round, trade};
use peers::{answers, check_played};
use std::alloc::{AllocError, Global};
use std::process::Abort;
use std::test::Fail;

/// A balanced exchange that peer 2 begins. Peer 1 is asked for its key before and after it has the CASE of peer 2, and then again.
const SMALL_TRADE: &[Row] = &[
    (1, 0, &[(Kind::Response, 1_504)]),
    (2, 1, &[(Kind::Divulge, 84), (Kind::Case, 2_596)]),
    (1, 2, &[(Kind::Case, 2_596)]),
    (2, 4, &[(Kind::KeyReq, 22)]),
    (1, 5, &[]),
    (1, 3, &[(Kind::KeyReq, 22)]),
    (1, 5, &[(Kind::Key, 1_506)]),
    (1, 5, &[(Kind::Key, 1_506)]),
    (2, 6, &[(Kind::Key, 1_506)]),
    (2, 7, &[]),
    (1, 9, &[]),
];

/// Gives both peers the manifests and updates that they hold in a round. `rounds` are the three rounds before it, in ascending order.
fn tell_held(
    rt: &impl Abort,
    alloc: Global,
    pair: &mut Pair,
    rounds: [u8; 3],
) -> Result<(), AllocError> {
    for round in rounds {
        tell_round(rt, alloc, pair, round, 8)?;
    }
    let [first, second, third] = rounds;
    tell_blocks(rt, alloc, &mut pair.one, 1, &[(first, 2), (second, 7)])?;
    let held = [(first, 0), (first, 2), (third, 1), (third, 3)];
    tell_blocks(rt, alloc, &mut pair.two, 2, &held)
}

/// The KEYREQ of peer 2, which began the balanced exchange of round 6.
const KEY_REQUEST: [u8; 22] = [
    0xba, 0x47, 1, 9, 0x00, 0x11, 0x22, 0x33, 0x44, 0x55, 0x66, 0x77, 0, 2, 0, 1, 0, 0, 0, 6, 0, 0,
];

fn small_trade(
    rt: &impl Abort,
    alloc: Global,
    pair: &mut Pair,
) -> Result<Vec<Vec<u8>>, AllocError> {
    trade(rt, alloc, pair, 6, SMALL_TRADE)
}

fn check_trade(rt: &impl Abort, alloc: Global, pair: &mut Pair) -> Result<(), AllocError> {
    let all = small_trade(rt, alloc, pair)?;
    check_window(rt, &all, 1, 20, [4, 0x80, 0, 0]);
    check_window(rt, &all, 2, 52, [5, 0, 0xa, 0]);
    assert_eq!(rt; part(&all, 8, 0, 1_506), part(&all, 7, 0, 1_506));
    assert_eq!(rt; part(&all, 5, 0, 22), Some(KEY_REQUEST.as_slice()));
    Ok(())
}

/// A REQUEST of peer 1 in round 6 whose seed isn't one of peer 1's.
fn stray_request(alloc: Global) -> Result<Vec<u8>, Fail> {
    let scheme = scheme_of(alloc, session(), 8)?;
    Ok(request(alloc, &scheme, 0)?)
}

/// Whether `bytes` consist of `before` other bytes and then a datagram.
fn holds(bytes: &[u8], datagram: &[u8], before: usize) -> bool {
    bytes.len().saturating_sub(datagram.len()) == before && bytes.ends_with(datagram)
}

/// Peer 2 keeps the REQUEST as evidence, and reports it to the broadcaster.
fn check_stray(
    rt: &impl Abort,
    alloc: Global,
    pair: &mut Pair,
    request: &[u8],
) -> Result<(), AllocError> {
    let sends = answers(rt, alloc, &mut pair.two, request)?;
    assert!(rt; holds(pair.two.evidence(1).unwrap_or(b""), request, 3));
    assert_eq!(rt; sends.len(), 1);
    for sent in &sends {
        assert!(rt; sent.to == 0 && holds(&sent.bytes, request, 19));
    }
    Ok(())
}

/// What both played and knew after the trade, from tick 42 on.
fn check_traded(rt: &impl Abort, alloc: Global, pair: &mut Pair) -> Result<(), AllocError> {
    let x = Exchange {
        round: 6,
        kind: XKind::Balanced,
        initiator: 2,
        responder: 1,
    };
    check_totals(rt, pair, x, 1);
    // the manifest of eight digests
    assert_eq!(rt; pair.two.manifest(4).map_or(0, |it| it.len()), 1_729);
    // peer 1 is paid (3, 0), and peer 2 (4, 7)
    check_played(rt, alloc, &mut pair.one, 24, b"3a3c4h")?;
    check_played(rt, alloc, &mut pair.two, 24, b"3a3c4h5b5d")?;
    check_totals_end(rt, alloc, pair, x)
}

/// Starts at the first tick of round 9. The totals of an exchange of round 6 are available up to the end of round 10, a life after it, and
/// no longer.
fn check_totals_end(
    rt: &impl Abort,
    alloc: Global,
    pair: &mut Pair,
    x: Exchange,
) -> Result<(), AllocError> {
    pass(rt, alloc, pair, 15)?;
    check_totals(rt, pair, x, 1);
    pass(rt, alloc, pair, 1)?;
    check_totals(rt, pair, x, 0);
    Ok(())
}

fn check_pair(
    rt: &impl Abort,
    alloc: Global,
    pair: &mut Pair,
    stray: &[u8],
) -> Result<(), AllocError> {
    pass(rt, alloc, pair, 40)?;
    tell_held(rt, alloc, pair, [3, 4, 5])?;
    check_trade(rt, alloc, pair)?;
    check_stray(rt, alloc, pair, stray)?;
    check_traded(rt, alloc, pair)
}

#[test]
fn one_update_is_traded_for_one(rt: HostRuntime) -> Result<(), Fail> {
    let alloc = rt.alloc();
    let stray = stray_request(alloc)?;
    let mut pair = pair_of(alloc, session())?;
    Ok(check_pair(&rt, alloc, &mut pair, &stray)?)
}
