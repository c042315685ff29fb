//! Tests of real links over the loopback network.
use bar_outside::{LARGEST_PACKET, Link, LinkFault, Taken};
use bar_system::RealLink;
use std::io;
use std::process::Abort;
use std::test::Fail;
use std::time::{Clock, SystemTime, UNIX_EPOCH};

/// The milliseconds since 1970.
pub fn millis<R: Clock>(rt: &R) -> io::Result<u64> {
    match SystemTime::now(rt)?.duration_since(UNIX_EPOCH) {
        Ok(since) => Ok(u64::try_from(since.as_millis()).unwrap_or(0)),
        Err(_) => Ok(0),
    }
}

/// A port of party 0, chosen by the time. Tests that run at the same time use different parties.
fn port_now(rt: &HostRuntime) -> Result<u16, Fail> {
    let port = 20_000 + millis(rt)? % 20_000;
    Ok(u16::try_from(port).unwrap_or(20_000))
}

/// A time far in the future, in milliseconds: no tick is due.
const NEVER: u64 = 1 << 60;

/// What may be a datagram of a session: a KEYREQ by its first bytes and its length.
const DATAGRAM: &[u8] = b"\xba\x47\x01\x09these are 18 bytes";

/// Checks that a link is bound to a party, with ticks from a time on.
fn check_bound(rt: &impl Abort, link: &mut impl Link, me: u16, port: u16, begin_ms: u64) {
    assert!(rt; link.bind(me, port, begin_ms, 1_000).is_ok());
}

/// Checks that bytes can be sent to a party.
fn check_sent(rt: &impl Abort, link: &mut impl Link, to: u16, bytes: &[u8]) {
    assert!(rt; link.send(to, bytes).is_ok());
}

/// What a link gives next.
pub fn next_into(link: &mut impl Link, buf: &mut [u8; LARGEST_PACKET]) -> Result<Taken, LinkFault> {
    link.next(buf)
}

/// The same, with a new buffer.
fn next_of(link: &mut impl Link) -> Result<Taken, LinkFault> {
    let mut buf = [0; LARGEST_PACKET];
    next_into(link, &mut buf)
}

/// Checks that a link gives a datagram of 22 bytes, of which these are the first.
fn check_datagram(rt: &impl Abort, link: &mut impl Link, front: &[u8]) {
    let mut buf = [0; LARGEST_PACKET];
    assert!(rt; matches!(next_into(link, &mut buf), Ok(Taken::Datagram(22))));
    assert!(rt; buf.starts_with(front));
}

/// Checks that a link gives a tick.
pub fn check_tick(rt: &impl Abort, link: &mut impl Link) {
    assert!(rt; matches!(next_of(link), Ok(Taken::Tick)));
}

/// Checks that a link gives nothing.
fn check_no_next(rt: &impl Abort, link: &mut impl Link) {
    assert!(rt; matches!(next_of(link), Err(LinkFault::Failed)));
}

/// Checks what arrives at two links.
fn check_arrivals(rt: &impl Abort, one: &mut impl Link, two: &mut impl Link, port: u16) {
    check_bound(rt, one, 1, port, NEVER);
    check_bound(rt, two, 2, port, NEVER);
    // what can't be a datagram of any session is dropped
    check_sent(rt, one, 2, b"hello");
    check_sent(rt, one, 2, &DATAGRAM[..21]);
    check_sent(rt, one, 2, DATAGRAM);
    check_datagram(rt, two, DATAGRAM);
    // each is sent to its receiver alone
    check_sent(rt, two, 2, b"\xba\x47\x01\x09its own, 18 bytes.");
    check_sent(rt, two, 1, DATAGRAM);
    check_datagram(rt, two, b"\xba\x47\x01\x09its own");
    check_datagram(rt, one, DATAGRAM);
}

#[test]
fn a_datagram_arrives(rt: HostRuntime) -> Result<(), Fail> {
    let port = port_now(&rt)?;
    check_arrivals(&rt, &mut RealLink::new(&rt), &mut RealLink::new(&rt), port);
    Ok(())
}

/// Checks that the largest datagram arrives from one link at another.
fn check_largest(rt: &impl Abort, from: &mut impl Link, to: &mut impl Link, port: u16) {
    let mut buf = [0; LARGEST_PACKET];
    buf[..4].copy_from_slice(b"\xba\x47\x02\x0b");
    check_bound(rt, to, 6, port, NEVER);
    check_bound(rt, from, 7, port, NEVER);
    // sending to a port where nobody listens doesn't fail
    check_sent(rt, from, 8, b"lost");
    check_sent(rt, from, 6, &buf);
    assert!(rt; matches!(next_into(to, &mut buf), Ok(Taken::Datagram(LARGEST_PACKET))));
}

#[test]
fn the_largest_datagram_arrives_whole(rt: HostRuntime) -> Result<(), Fail> {
    let port = port_now(&rt)?;
    check_largest(&rt, &mut RealLink::new(&rt), &mut RealLink::new(&rt), port);
    Ok(())
}

/// Checks that a link gives ticks that are overdue, one a call.
fn check_overdue(rt: &impl Abort, link: &mut impl Link, port: u16) {
    check_bound(rt, link, 4, port, 0);
    check_tick(rt, link);
    check_tick(rt, link);
}

#[test]
fn overdue_ticks_come_one_a_call(rt: HostRuntime) -> Result<(), Fail> {
    let port = port_now(&rt)?;
    check_overdue(&rt, &mut RealLink::new(&rt), port);
    Ok(())
}

/// Checks that bytes can't be sent to a party.
fn check_not_sent(rt: &impl Abort, link: &mut impl Link, to: u16, bytes: &[u8]) {
    assert!(rt; matches!(link.send(to, bytes), Err(LinkFault::Failed)));
}

/// Checks that an unbound link gives and sends nothing, and that it isn't bound to a party of another link.
fn check_faults(rt: &impl Abort, link: &mut impl Link, other: &mut impl Link, port: u16) {
    check_no_next(rt, link);
    check_not_sent(rt, link, 1, b"x");
    check_bound(rt, other, 5, port, NEVER);
    assert!(rt; matches!(link.bind(5, port, NEVER, 1_000), Err(LinkFault::Failed)));
}

#[test]
fn a_link_that_fails_answers_a_fault(rt: HostRuntime) -> Result<(), Fail> {
    let port = port_now(&rt)?;
    check_faults(&rt, &mut RealLink::new(&rt), &mut RealLink::new(&rt), port);
    Ok(())
}
