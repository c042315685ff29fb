//! Tests of whole broadcasters: what they send and whom they evict. The expected values are worked out by hand from the rules.

pub mod casters;

use crate::requests::request;
use crate::sends::Sent;
use bar_caster::Caster;
use bar_hss::SessionScheme;
use bar_samples::sessions::{ID, session, third_session};
use bar_samples::signed::{add_entry, scheme_of};
use casters::{caster_of, counts, tell, ticks};
use std::alloc::{AllocError, Global};
use std::process::Abort;
use std::test::Fail;

/// The start of a datagram of a kind.
fn front(kind: u8) -> [u8; 12] {
    let [a, b, c, d, e, f, g, h] = ID;
    [0xba, 0x47, 1, kind, a, b, c, d, e, f, g, h]
}

const MANIFEST: u8 = 1;

const EVIDENCE: u8 = 11;

const EVICT: u8 = 12;

/// Checks how many datagrams of a kind and a length the two peers get.
fn check_counts(rt: &impl Abort, sends: &[Sent], kind: u8, len: usize, expected: [usize; 2]) {
    assert_eq!(rt; counts(sends, &front(kind), len), expected);
}

/// Checks how many datagrams the next ticks send. Each part counts those of several ticks together.
fn check_ticks(
    rt: &impl Abort,
    alloc: Global,
    caster: &mut Caster<SessionScheme>,
    parts: &[(u8, usize)],
) -> Result<(), AllocError> {
    for (count, len) in parts {
        assert_eq!(rt; ticks(rt, alloc, caster, *count)?.len(), *len);
    }
    assert!(rt; caster.over());
    Ok(())
}

/// Checks the same for a broadcaster of two updates, up to its last tick.
fn check_stream(
    rt: &impl Abort,
    alloc: Global,
    session: &str,
    parts: &[(u8, usize)],
) -> Result<(), Fail> {
    let mut caster = caster_of(alloc, session, 1_023)?;
    Ok(check_ticks(rt, alloc, &mut caster, parts)?)
}

/// The slots of two rounds, and all that follow. Round 1 has a MANIFEST, and each of its two blocks is sent to one peer twice. The other
/// rounds have a MANIFEST alone.
const SLOTS: [(u8, usize); 10] = [
    (1, 2),
    (1, 2),
    (2, 0),
    (1, 2),
    (1, 2),
    (2, 0),
    (1, 2),
    (3, 0),
    (1, 2),
    (107, 32),
];

#[test]
fn manifests_and_blocks_have_their_slots(rt: HostRuntime) -> Result<(), Fail> {
    check_stream(&rt, rt.alloc(), session(), &SLOTS)
}

/// The same in version 3, in which the MANIFEST of each round is sent once more in slot 2 of the next round. That of round 20 is sent in
/// tick 163, and nothing after it.
const SLOTS_OF_3: [(u8, usize); 15] = [
    (1, 2),
    (1, 2),
    (2, 0),
    (1, 2),
    (1, 2),
    (2, 0),
    (1, 2),
    (1, 0),
    (1, 2),
    (1, 0),
    (1, 2),
    (3, 0),
    (146, 108),
    (1, 2),
    (37, 0),
];

#[test]
fn a_manifest_is_said_again_in_the_round_after_it(rt: HostRuntime) -> Result<(), Fail> {
    check_stream(&rt, rt.alloc(), third_session(), &SLOTS_OF_3)
}

/// The EVIDENCE of peer 2 with these datagrams.
fn evidence(alloc: Global, datagrams: [&[u8]; 2]) -> Result<Vec<u8>, AllocError> {
    let mut bytes = front(EVIDENCE).to_vec(alloc)?;
    bytes.extend_from_slice(&[0, 2, 0, 0, 2])?;
    for datagram in datagrams {
        add_entry(&mut bytes, datagram)?;
    }
    Ok(bytes)
}

/// Checks the evidence that a broadcaster keeps against peer 1.
fn check_kept(rt: &impl Abort, caster: &Caster<SessionScheme>, kept: Option<&[u8]>) {
    assert_eq!(rt; caster.evidence(1), kept);
}

/// Checks whom a broadcaster has evicted, and the evidence that it keeps.
fn check_evicted(
    rt: &impl Abort,
    caster: &Caster<SessionScheme>,
    evicted: &[u16],
    kept: Option<&[u8]>,
) {
    assert_eq!(rt; caster.evicted(), evicted);
    check_kept(rt, caster, kept);
    assert!(rt; caster.evidence(2).is_none());
}

/// Evidence of two different REQUESTs that peer 1 signed, in both orders.
fn evidence_of_two(alloc: Global) -> Result<[Vec<u8>; 2], Fail> {
    let scheme = scheme_of(alloc, session(), 8)?;
    let one = request(alloc, &scheme, 1)?;
    let two = request(alloc, &scheme, 2)?;
    Ok([
        evidence(alloc, [&one, &two])?,
        evidence(alloc, [&two, &one])?,
    ])
}

/// Datagrams that are no evidence change nothing. `evidence` is taken in round 6.
fn check_taken(
    rt: &impl Abort,
    alloc: Global,
    caster: &mut Caster<SessionScheme>,
    evidence: &[u8],
) -> Result<(), AllocError> {
    ticks(rt, alloc, caster, 48)?;
    tell(rt, alloc, caster, b"")?;
    tell(rt, alloc, caster, evidence.get(19..).unwrap_or(b""))?;
    check_evicted(rt, caster, &[], None);
    tell(rt, alloc, caster, evidence)
}

/// The next round announces an eviction once.
fn check_announced(
    rt: &impl Abort,
    alloc: Global,
    caster: &mut Caster<SessionScheme>,
) -> Result<(), AllocError> {
    let sends = ticks(rt, alloc, caster, 8)?;
    check_counts(rt, &sends, MANIFEST, 1_473, [0, 2]);
    check_counts(rt, &sends, EVICT, 1_475, [0, 1]);
    assert_eq!(rt; sends.len(), 3);
    Ok(())
}

/// Evidence that is taken in round 6 is announced at the first slot of round 7, once. Other datagrams change nothing.
fn check_evidence(
    rt: &impl Abort,
    alloc: Global,
    caster: &mut Caster<SessionScheme>,
    evidence: &[Vec<u8>; 2],
) -> Result<(), AllocError> {
    let [first, second] = evidence;
    check_taken(rt, alloc, caster, first)?;
    tell(rt, alloc, caster, second)?;
    check_evicted(rt, caster, &[1], first.get(16..));
    check_announced(rt, alloc, caster)
}

#[test]
fn evidence_of_round_6_is_announced_in_round_7(rt: HostRuntime) -> Result<(), Fail> {
    let alloc = rt.alloc();
    let evidence = evidence_of_two(alloc)?;
    let mut caster = caster_of(alloc, session(), 0)?;
    Ok(check_evidence(&rt, alloc, &mut caster, &evidence)?)
}
