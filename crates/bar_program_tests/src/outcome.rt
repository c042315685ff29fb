//! Runs of `bar_run` over an outside in memory, and checks of how they ended.
use bar_cli::bar_run;
use bar_outside::{MemFiles, MemLink, MemSink, MemSpawner};
use std::alloc::{AllocError, Global};
use std::process::Abort;

/// The outside of a run.
#[derive(Drop)]
pub struct Outside {
    pub files: MemFiles,
    pub link: MemLink,
    pub spawn: MemSpawner,
    pub out: MemSink,
    pub err: MemSink,
}

/// What a run left.
#[derive(Drop)]
pub struct Left {
    pub status: u8,
    pub outside: Outside,
}

/// An outside of these files, a link that ends at once, no statuses of children, and outputs of which these writes fail.
pub fn outside_of(
    alloc: Global,
    files: MemFiles,
    fail_out: &[u64],
    fail_err: &[u64],
) -> Result<Outside, AllocError> {
    Ok(Outside {
        files,
        link: MemLink::make(alloc, Vec::new(alloc), Vec::new(alloc)),
        spawn: MemSpawner::make(alloc, Vec::new(alloc), Vec::new(alloc)),
        out: MemSink::make(alloc, fail_out.to_vec(alloc)?),
        err: MemSink::make(alloc, fail_err.to_vec(alloc)?),
    })
}

/// The arguments in a line, which are separated by blanks.
pub fn words_of(alloc: Global, line: &str) -> Result<Vec<String>, AllocError> {
    let mut words = Vec::new(alloc);
    for word in line.split(' ') {
        words.push(String::from_str(alloc, word)?)?;
    }
    Ok(words)
}

/// Runs the command of a line.
pub fn run(alloc: Global, line: &str, mut outside: Outside) -> Result<Left, AllocError> {
    let words = words_of(alloc, line)?;
    let status = bar_run(
        alloc,
        &words,
        &mut outside.files,
        &mut outside.link,
        &mut outside.out,
        &mut outside.err,
        &mut outside.spawn,
    );
    Ok(Left { status, outside })
}

/// Checks how a run ended: its status, and what it wrote to standard error.
pub fn check_status(rt: &impl Abort, left: &Left, status: u8, err: &str) {
    assert_eq!(rt; left.status, status);
    assert_eq!(rt; left.outside.err.bytes(), err.as_bytes());
}

/// Checks how a run ended: its status, what it printed, and what it wrote to standard error.
pub fn check_end(rt: &impl Abort, left: &Left, status: u8, out: &str, err: &str) {
    check_status(rt, left, status, err);
    assert_eq!(rt; left.outside.out.bytes(), out.as_bytes());
}

/// Checks what a file holds. A missing file counts as holding `none`.
pub fn check_file(rt: &impl Abort, left: &Left, path: &str, bytes: &[u8]) {
    let held = left.outside.files.get(path).unwrap_or(b"none");
    assert_eq!(rt; held, bytes, "{path}");
}
