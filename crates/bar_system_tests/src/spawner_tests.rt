//! Tests of real child programs and their statuses.
use bar_outside::{ChildFault, Spawner};
use bar_system::RealSpawner;
use std::alloc::{AllocError, Global};
use std::process::Abort;
use std::test::Fail;

fn add_word(alloc: Global, words: &mut Vec<String>, word: &str) -> Result<(), AllocError> {
    words.push(String::from_str(alloc, word)?)?;
    Ok(())
}

fn shell(alloc: Global, script: &str) -> Result<Vec<String>, AllocError> {
    let mut words = Vec::new(alloc);
    for word in ["/bin/sh", "-c", script] {
        add_word(alloc, &mut words, word)?;
    }
    Ok(words)
}

/// Checks the status with which a child program ends.
fn check_status(rt: &impl Abort, spawner: &mut impl Spawner, words: &[String], status: i32) {
    assert!(rt; 0 < words.len());
    let Ok(child) = spawner.start(words) else {
        panic!(rt; "the child isn't started");
    };
    assert!(rt; matches!(spawner.wait(child), Ok(ended) if ended == status));
}

#[test]
fn children_end_with_their_statuses(rt: HostRuntime) -> Result<(), Fail> {
    let mut spawner = RealSpawner::new(&rt);
    // two exit statuses, and a signal
    for (script, status) in [("exit 0", 0), ("exit 6", 6), ("kill -9 $$", 137)] {
        check_status(&rt, &mut spawner, &shell(rt.alloc(), script)?, status);
    }
    Ok(())
}

#[test]
fn a_program_that_is_not_there_fails(rt: HostRuntime) -> Result<(), Fail> {
    let alloc = rt.alloc();
    let mut words = Vec::new(alloc);
    add_word(alloc, &mut words, "/no/such/program")?;
    assert!(rt; 0 < words.len());
    let mut spawner = RealSpawner::new(&rt);
    assert_eq!(rt; spawner.start(&words), Err(ChildFault::Failed));
    Ok(())
}
