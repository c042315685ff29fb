//! Tests of the limits on what a link takes between two ticks, over a socket that never runs out.
use crate::endless_socket::EndlessSocket;
use crate::link_tests::{check_tick, millis, next_into};
use bar_outside::{LARGEST_PACKET, Link, Taken};
use bar_system::RealLink;
use std::process::Abort;
use std::test::Fail;

/// The time until the first tick, in milliseconds.
const BEFORE: u64 = 1_000;

/// Checks that a link gives this many datagrams.
fn check_datagrams(rt: &impl Abort, link: &mut impl Link, count: usize) {
    let mut buf = [0; LARGEST_PACKET];
    for _ in 0..count {
        assert!(rt; matches!(next_into(link, &mut buf), Ok(Taken::Datagram(_))));
    }
}

/// Checks how many datagrams a link takes before the first tick. After that tick another one must be taken.
fn check_room(rt: &impl Abort, link: &mut impl Link, me: u16, begin_ms: u64, room: usize) {
    assert!(rt; link.bind(me, 20_000, begin_ms, 60_000).is_ok());
    check_datagrams(rt, link, room);
    check_tick(rt, link);
    check_datagrams(rt, link, 1);
}

#[test]
fn a_tick_has_room_for_so_much(rt: HostRuntime) -> Result<(), Fail> {
    // 16,384 short ones, or as many long ones as fit into 8 MiB
    for (me, room) in [(0, 16_384), (1, 128)] {
        let mut link: RealLink<'_, HostRuntime, EndlessSocket> = RealLink::over(&rt);
        let begin = millis(&rt)?.saturating_add(BEFORE);
        check_room(&rt, &mut link, me, begin, room);
    }
    Ok(())
}
