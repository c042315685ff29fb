//! Tests of whole commands over files, links and outputs in memory. The expected numbers are worked out by hand from the rules.
ghost use Rattle.std.specs.Prelude.{◌≡◌, true};
ghost use Rattle.bar_outside.specs.Code.MemTaken.{are_small};

use crate::outcome::{Left, check_end, check_file, outside_of, run};
use bar_outside::{MemFiles, MemLink, MemTaken, Sent};
use bar_samples::keys::{caster_key, peer_key, spent_caster_key};
use bar_samples::sessions::session;
use std::alloc::{AllocError, Global};
use std::process::Abort;
use std::test::Fail;

const PEER: &str = "peer --session s --key k --begin 5000 --played p --recording r --found f";

const REPLAY: &str = "replay --session s --key k --recording in --played p --found f";

const CASTER: &str = "broadcaster --session s --key k --begin 5000 --stream t --found f";

/// The head of the recording of the session's second peer.
const HEAD: [u8; 15] = [
    b'B', b'A', b'R', b'L', 1, 0x00, 0x11, 0x22, 0x33, 0x44, 0x55, 0x66, 0x77, 0, 2,
];

/// The session and a key file.
fn prepared(alloc: Global, key: &str) -> Result<MemFiles, Fail> {
    let mut files = MemFiles::make(alloc, Vec::new(alloc));
    files.put("s", session().as_bytes())?;
    files.put("k", key.as_bytes())?;
    Ok(files)
}

/// Adds `count` ticks.
fn add_ticks(list: &mut Vec<MemTaken>, count: u32) -> Result<(), AllocError>
    requires { are_small list.old.items ≡ true }
    ensures { are_small list.new.items ≡ true }
{
    for before in 0..count {
        list.push(MemTaken::Tick)?;
    }
    Ok(())
}

/// Adds `count` empty datagrams.
fn add_datagrams(alloc: Global, list: &mut Vec<MemTaken>, count: u32) -> Result<(), AllocError>
    requires { are_small list.old.items ≡ true }
    ensures { are_small list.new.items ≡ true }
{
    for before in 0..count {
        list.push(MemTaken::Datagram(Vec::new(alloc)))?;
    }
    Ok(())
}

/// A link that gives some ticks and then some empty datagrams, and of which these calls fail.
fn link_of(alloc: Global, ticks: u32, datagrams: u32, fail: &[u64]) -> Result<MemLink, AllocError> {
    let mut list = Vec::new(alloc);
    add_ticks(&mut list, ticks)?;
    add_datagrams(alloc, &mut list, datagrams)?;
    Ok(MemLink::make(alloc, list, fail.to_vec(alloc)?))
}

/// Runs the command of a line with these files over this link.
fn run_over(alloc: Global, line: &str, files: MemFiles, link: MemLink) -> Result<Left, AllocError> {
    let mut outside = outside_of(alloc, files, &[], &[])?;
    outside.link = link;
    run(alloc, line, outside)
}

/// Checks what the link is bound to: the party, the session's port, and the first tick and the length of a tick in milliseconds.
fn check_bound(rt: &impl Abort, left: &Left, me: u16) {
    let bound = left.outside.link.place();
    let place = bound.map(|p| (p.me, p.port, p.begin_ms, p.tick_ms));
    assert_eq!(rt; place, Some((me, 20_000, 5_000, 20)));
}

/// Checks that what was sent is the REQUEST of round 1, twice.
fn check_sent_twice(rt: &impl Abort, sent: &[Sent]) {
    let [one, two] = sent else {
        panic!(rt; "so many were sent: {}", sent.len());
    };
    assert!(rt; (one.to, two.to) == (1, 1) && one.bytes == two.bytes);
    assert!(rt; one.bytes.starts_with(&[0xba, 0x47, 1, 3]));
}

/// A peer whose third send fails, which is the seventh call of its link.
fn stopped(alloc: Global) -> Result<Left, Fail> {
    let link = link_of(alloc, 120, 0, &[7])?;
    Ok(run_over(alloc, PEER, prepared(alloc, peer_key())?, link)?)
}

#[test]
fn a_failed_call_of_the_link_stops_a_peer(rt: HostRuntime) -> Result<(), Fail> {
    let left = stopped(rt.alloc())?;
    check_end(&rt, &left, 6, "", "bar: link failed\n");
    check_bound(&rt, &left, 2);
    check_sent_twice(&rt, left.outside.link.sent());
    Ok(())
}

/// What a stopped peer recorded has no end, and isn't replayed.
#[test]
fn the_recording_of_a_stopped_peer_is_refused(rt: HostRuntime) -> Result<(), Fail> {
    let left = stopped(rt.alloc())?;
    let recording = left.outside.files.get("r").unwrap_or(b"");
    assert_eq!(rt; recording.len(), 18);
    let mut files = prepared(rt.alloc(), peer_key())?;
    files.put("in", recording)?;
    let refused = run(rt.alloc(), REPLAY, outside_of(rt.alloc(), files, &[], &[])?)?;
    check_end(
        &rt,
        &refused,
        8,
        "",
        "bar: input refused: recording NoEnd\n",
    );
    Ok(())
}

/// After 65,536 datagrams in a row a tick is inserted that the link didn't give.
#[test]
fn a_tick_is_taken_among_many_datagrams(rt: HostRuntime) -> Result<(), Fail> {
    let alloc = rt.alloc();
    let link = link_of(alloc, 0, 65_537, &[])?;
    let left = run_over(alloc, PEER, prepared(alloc, peer_key())?, link)?;
    check_end(&rt, &left, 0, "ticks 1 sent 1 played 0\n", "");
    let mut recording = HEAD.to_vec(alloc)?;
    for _ in 0..65_536u32 {
        recording.extend_from_slice(&[2, 0, 0])?;
    }
    recording.extend_from_slice(&[1, 2, 0, 0, 0])?;
    check_file(&rt, &left, "r", &recording);
    Ok(())
}

#[test]
fn an_empty_stream_over_an_empty_link(rt: HostRuntime) -> Result<(), Fail> {
    let alloc = rt.alloc();
    let mut files = prepared(alloc, caster_key())?;
    files.put("t", b"")?;
    let left = run_over(alloc, CASTER, files, link_of(alloc, 0, 0, &[])?)?;
    check_end(&rt, &left, 0, "ticks 0 sent 0\n", "");
    check_bound(&rt, &left, 0);
    check_file(&rt, &left, "k", spent_caster_key().as_bytes());
    Ok(())
}
