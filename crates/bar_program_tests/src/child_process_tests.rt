//! Tests of sessions over a spawner and a sink in memory.
use crate::outcome::words_of;
use bar_child_processes::{Outcome, SessionNames, run_children};
use bar_outside::{MemCall, MemSink, MemSpawner};
use std::test::Fail;

const NAMES: SessionNames<'static> = SessionNames {
    session: "ses",
    keys: "k",
    stream: "s",
    begin: "5",
    results: "out/r",
    program: "bar",
};

// The statuses of the children, the failing calls of the spawner and the sink, what is printed, the outcome, and the number of calls of the
// spawner.
const SESSIONS: [(&[i32], &[u64], &[u64], &str, Outcome, usize); 6] = [
    (
        &[0, 0, 6],
        &[],
        &[],
        "party 1 status 0\nparty 2 status 0\nparty 0 status 6\n",
        Outcome::ChildFailed,
        6,
    ),
    (
        &[0, 0, 0],
        &[],
        &[],
        "party 1 status 0\nparty 2 status 0\nparty 0 status 0\n",
        Outcome::Done,
        6,
    ),
    // the second start
    (
        &[0],
        &[2],
        &[],
        "party 1 status 0\n",
        Outcome::ChildFailed,
        2,
    ),
    // the second wait
    (
        &[0, 0, 0],
        &[5],
        &[],
        "party 1 status 0\nparty 0 status 0\n",
        Outcome::ChildFailed,
        6,
    ),
    // the second line
    (
        &[-2, 0, 0],
        &[],
        &[2],
        "party 1 status -2\nparty 2 ",
        Outcome::ChildFailed,
        6,
    ),
    (
        &[0, 9, 0],
        &[],
        &[2],
        "party 1 status 0\nparty 2 ",
        Outcome::OutputFailed,
        6,
    ),
];

#[test]
fn sessions_end_by_their_children(rt: HostRuntime) -> Result<(), Fail> {
    let alloc = rt.alloc();
    for (statuses, calls, writes, text, outcome, taken) in SESSIONS {
        let mut spawner = MemSpawner::make(alloc, statuses.to_vec(alloc)?, calls.to_vec(alloc)?);
        let mut out = MemSink::make(alloc, writes.to_vec(alloc)?);
        assert_eq!(rt;
            run_children(alloc, &NAMES, 2, &mut out, &mut spawner),
            outcome,
            "{text}"
        );
        assert_eq!(rt; out.bytes(), text.as_bytes());
        assert_eq!(rt; spawner.calls().len(), taken, "{text}");
    }
    Ok(())
}

#[test]
fn children_are_started_by_their_words(rt: HostRuntime) -> Result<(), Fail> {
    let alloc = rt.alloc();
    let mut spawner = MemSpawner::make(alloc, Vec::new(alloc), Vec::new(alloc));
    let mut out = MemSink::make(alloc, Vec::new(alloc));
    run_children(alloc, &NAMES, 2, &mut out, &mut spawner);
    let peer =
        "bar peer --session ses --key k.1 --begin 5 --played out/r.1.played --recording out/r.1.recording --found out/r.1";
    let first = MemCall::Started {
        words: words_of(alloc, peer)?,
        child: 0,
    };
    let caster = "bar broadcaster --session ses --key k.0 --begin 5 --stream s --found out/r.0";
    let last = MemCall::Started {
        words: words_of(alloc, caster)?,
        child: 2,
    };
    assert_eq!(rt; spawner.calls().first(), Some(&first));
    assert_eq!(rt; spawner.calls().get(2), Some(&last));
    Ok(())
}
