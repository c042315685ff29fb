//! Tests in which each call of a short run that can fail does so once: calls of its files, link, output and children.
ghost use Rattle.std.specs.Prelude.{true};

use crate::outcome::{Left, Outside, outside_of, run};
use bar_outside::{MemFiles, MemLink, MemSpawner, MemTaken};
use bar_samples::keys::{small_caster_key, small_key};
use bar_samples::sessions::small_session;
use bar_samples::signed::{evidence, front, scheme_of, sign};
use std::alloc::{AllocError, Global};
use std::process::Abort;
use std::test::Fail;

/// A command with a short run.
#[derive(Clone, Copy)]
enum Short {
    Peer,
    Broadcaster,
    Replay,
    Keygen,
    HssKeygen,
    Audit,
    Judge,
    Pack,
    PackShown,
    Verify,
    Session,
    Simulate,
}

impl Short {
    fn line(self) -> &'static str {
        match self {
            Short::Peer => "peer --session s --key k --begin 5 --played p --recording r --found f",
            Short::Broadcaster => {
                "broadcaster --session s --key c --begin 5 --stream t --found f"
            }
            Short::Replay => "replay --session s --key k --recording in --played p --found f",
            Short::Keygen => {
                "keygen --party 1 --id 0011223344556677 --rounds 1 --lms 5 --ots 4 --secret x --key p"
            }
            Short::HssKeygen => {
                "hsskeygen --party 1 --id 0011223344556677 --rounds 1 --top 5 --ots 4 --secret x --key p"
            }
            Short::Audit => "audit --session s --results a --first 1 --last 2",
            Short::Judge => "judge --session s --table t --evidence e",
            Short::Pack => "pack --session s --table t --evidence e --proof p",
            Short::PackShown => "pack --session s --table t --evidence w --proof p",
            Short::Verify => "verify --session s --proof v",
            Short::Session => {
                "session --session s --keys k --stream t --begin 5 --results r --program bar"
            }
            Short::Simulate => "simulate --seed 1",
        }
    }
}

/// An object of the outside whose call fails.
#[derive(Clone, Copy)]
enum Object {
    Files,
    Link,
    Output,
    Spawner,
}

impl Object {
    /// The status of a run in which a call of this object fails, and the error line.
    fn end(self) -> (u8, &'static str) {
        match self {
            Object::Files => (3, "bar: file failed\n"),
            Object::Link => (6, "bar: link failed\n"),
            Object::Output => (7, "bar: output failed\n"),
            Object::Spawner => (9, "bar: child failed\n"),
        }
    }
}

/// The number of the failing call, or 0, which no call has, if none of this object fails.
fn number_for(alloc: Global, fails: bool, number: u64) -> Result<Vec<u64>, AllocError> {
    let number = if fails { number } else { 0 };
    [number].to_vec(alloc)
}

/// The recording of a party with these ticks.
fn recording_of(alloc: Global, party: u8, ticks: &[u8]) -> Result<Vec<u8>, AllocError> {
    let mut bytes = b"BARL\x01".to_vec(alloc)?;
    bytes.extend_from_slice(&[0x00, 0x11, 0x22, 0x33, 0x44, 0x55, 0x66, 0x77, 0, party])?;
    bytes.extend_from_slice(ticks)?;
    bytes.push(0)?;
    Ok(bytes)
}

/// Evidence of a REQUEST whose seed isn't one of its sender's.
fn shown_evidence(alloc: Global) -> Result<Vec<u8>, Fail> {
    let mut request = front(alloc, 3, [0, 1, 0, 2], 1)?;
    request.extend_from_slice(&[0; 64])?;
    sign(
        alloc,
        &scheme_of(alloc, small_session(), 8)?,
        0,
        &mut request,
    )?;
    Ok(evidence(alloc, &request, None)?)
}

/// Prepares the files that the short runs read: evidence that shows a fault; evidence of a datagram of one byte, alone and in a proof file;
/// an empty table, which is also an empty stream; and recordings without datagrams.
fn put_all(alloc: Global, files: &mut MemFiles, shown: &[u8]) -> Result<(), AllocError> {
    files.put("w", shown)?;
    files.put("s", small_session().as_bytes())?;
    files.put("k", small_key().as_bytes())?;
    files.put("c", small_caster_key().as_bytes())?;
    files.put("e", &[1, 0, 1, 7])?;
    files.put("v", b"BARP\x01\x00\x01\x00\x01\x07")?;
    files.put("x", &[8; 32])?;
    files.put("t", b"")?;
    files.put("in", &recording_of(alloc, 2, &[1, 1])?)?;
    files.put("a.1.recording", &recording_of(alloc, 1, &[])?)?;
    files.put("a.2.recording", &recording_of(alloc, 2, &[])?)?;
    Ok(())
}

/// A link of two ticks and a datagram.
fn link_of(alloc: Global, fail: Vec<u64>) -> Result<MemLink, AllocError> {
    let mut list = Vec::new(alloc);
    list.push(MemTaken::Tick)?;
    list.push(MemTaken::Datagram(Vec::new(alloc)))?;
    list.push(MemTaken::Tick)?;
    Ok(MemLink::make(alloc, list, fail))
}

/// The outside of a short run, in which an object's call of this number fails.
fn outside_by(
    alloc: Global,
    object: Object,
    number: u64,
    shown: &[u8],
) -> Result<Outside, AllocError> {
    let fail = number_for(alloc, matches!(object, Object::Files), number)?;
    let mut files = MemFiles::make(alloc, fail);
    put_all(alloc, &mut files, shown)?;
    let fail_out = number_for(alloc, matches!(object, Object::Output), number)?;
    let mut outside = outside_of(alloc, files, &fail_out, &[])?;
    let fail = number_for(alloc, matches!(object, Object::Link), number)?;
    outside.link = link_of(alloc, fail)?;
    let fail = number_for(alloc, matches!(object, Object::Spawner), number)?;
    outside.spawn = MemSpawner::make(alloc, Vec::new(alloc), fail);
    Ok(outside)
}

fn run_with(
    alloc: Global,
    command: Short,
    object: Object,
    number: u64,
    shown: &[u8],
) -> Result<Left, AllocError> {
    run(
        alloc,
        command.line(),
        outside_by(alloc, object, number, shown)?,
    )
}

/// Whether a file holds a prefix of what it holds after a whole run, or what it held before it.
fn is_front(left: &Left, whole: &Left, path: &str) -> bool {
    match (left.outside.files.get(path), whole.outside.files.get(path)) {
        (Some(bytes), Some(all)) => all.starts_with(bytes),
        (Some(_), None) => false,
        (None, _) => true,
    }
}

/// Checks that what was printed is a prefix of what a whole run prints.
fn check_printed(rt: &impl Abort, left: &Left, whole: &Left, number: u64) {
    let printed = left.outside.out.bytes();
    let all = whole.outside.out.bytes();
    assert!(rt; all.starts_with(printed), "at {number}");
}

/// Checks that each started child is waited for. The three starts come first, and a refused start isn't listed as a call.
fn check_waited(rt: &impl Abort, left: &Left, number: u64) {
    let calls = match number {
        1 => 0,
        2 => 2,
        3 => 4,
        _ => 6,
    };
    assert!(rt; left.outside.spawn.calls().len() == calls, "at {number}");
}

/// Checks the end of a run in which a call failed. What it played, recorded and printed are prefixes of what a whole run plays, records and
/// prints. A session prints nothing about a child whose start or wait failed, and continues with those that were started.
fn check_stopped(rt: &impl Abort, left: &Left, whole: &Left, object: Object, number: u64) {
    let (status, line) = object.end();
    assert!(rt; left.status == status, "at {number}");
    assert!(rt; left.outside.err.bytes() == line.as_bytes(), "at {number}");
    assert!(rt; is_front(left, whole, "p"), "at {number}");
    assert!(rt; is_front(left, whole, "r"), "at {number}");
    match object {
        Object::Spawner => check_waited(rt, left, number),
        Object::Files | Object::Link | Object::Output => check_printed(rt, left, whole, number),
    }
}

/// More calls than a short run makes.
const MANY: u64 = 100;

/// Makes each call of an object fail in turn, up to the first number that no call has; that run is whole. Returns how many calls there are.
fn count_calls(
    rt: &impl Abort,
    alloc: Global,
    command: Short,
    object: Object,
    shown: &[u8],
) -> Result<u64, Fail> {
    let whole = run_with(alloc, command, object, 0, shown)?;
    for before in 0..MANY {
        let left = run_with(alloc, command, object, before + 1, shown)?;
        if left.status == whole.status {
            assert_eq!(rt; left.outside.out.bytes(), whole.outside.out.bytes());
            return Ok(before);
        }
        check_stopped(rt, &left, &whole, object, before + 1);
    }
    panic!(rt; "it makes more calls")
}

/// The objects that each command uses.
const USED: [(Short, &[Object]); 12] = [
    (Short::Peer, &[Object::Files, Object::Link, Object::Output]),
    (
        Short::Broadcaster,
        &[Object::Files, Object::Link, Object::Output],
    ),
    (Short::Replay, &[Object::Files, Object::Output]),
    (Short::Keygen, &[Object::Files, Object::Output]),
    (Short::HssKeygen, &[Object::Files, Object::Output]),
    (Short::Audit, &[Object::Files, Object::Output]),
    (Short::Judge, &[Object::Files, Object::Output]),
    (Short::Pack, &[Object::Files, Object::Output]),
    (Short::PackShown, &[Object::Files, Object::Output]),
    (Short::Verify, &[Object::Files, Object::Output]),
    (
        Short::Session,
        &[Object::Files, Object::Output, Object::Spawner],
    ),
    (Short::Simulate, &[Object::Output]),
];

#[test]
fn each_call_fails_once(rt: HostRuntime) -> Result<(), Fail> {
    let alloc = rt.alloc();
    let shown = shown_evidence(alloc)?;
    for (place, (command, objects)) in USED.iter().enumerate() {
        for object in *objects {
            let counted = count_calls(&rt, alloc, *command, *object, &shown)?;
            assert!(&rt; 0 < counted, "command {place}");
        }
    }
    Ok(())
}
