//! Tests of sessions over files, sinks and a spawner in memory.
use crate::outcome::{Left, check_end, outside_of, run};
use bar_outside::{MemFiles, MemSpawner};
use bar_samples::sessions::session;
use std::alloc::{AllocError, Global};
use std::test::Fail;

/// A session whose children end with these statuses.
fn run_session(alloc: Global, session: &str, statuses: &[i32]) -> Result<Left, AllocError> {
    let mut files = MemFiles::make(alloc, Vec::new(alloc));
    files.put("ses", session.as_bytes())?;
    let mut outside = outside_of(alloc, files, &[], &[])?;
    outside.spawn = MemSpawner::make(alloc, statuses.to_vec(alloc)?, Vec::new(alloc));
    let line = "session --session ses --keys k --stream st --begin 5 --results r --program bar";
    run(alloc, line, outside)
}

#[test]
fn children_and_their_statuses(rt: HostRuntime) -> Result<(), Fail> {
    let left = run_session(rt.alloc(), session(), &[0, 0, 6])?;
    let all = "party 1 status 0\nparty 2 status 0\nparty 0 status 6\n";
    check_end(&rt, &left, 9, all, "bar: child failed\n");
    assert_eq!(rt; left.outside.spawn.calls().len(), 6);
    Ok(())
}

#[test]
fn no_child_is_started_in_a_session_that_is_refused(rt: HostRuntime) -> Result<(), Fail> {
    let left = run_session(rt.alloc(), "", &[])?;
    check_end(&rt, &left, 4, "", "bar: session refused: Missing version\n");
    assert!(rt; left.outside.spawn.calls().is_empty());
    Ok(())
}
