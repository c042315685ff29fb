//! Tests of the real files, in the folder where the tests run.
use bar_outside::{FileFault, Files};
use bar_system::RealFiles;
use std::os::unix::fs::MetadataExt;
use std::process::Abort;
use std::{fs, rt};

/// A key text, all of whose digits of the secret are the same.
const FRESH: &[u8] =
    b"version = 1\nsecret = \"aaaaaaaaaaaaaaaaaaaaaaaaaaaaaaaaaaaaaaaaaaaaaaaaaaaaaaaaaaaaaaaa\"\nspent = false\n";

/// The same key, which is spent.
const SPENT: &[u8] =
    b"version = 1\nsecret = \"aaaaaaaaaaaaaaaaaaaaaaaaaaaaaaaaaaaaaaaaaaaaaaaaaaaaaaaaaaaaaaaa\"\nspent = true\n";

/// Another key.
const OTHER: &[u8] =
    b"version = 1\nsecret = \"bbbbbbbbbbbbbbbbbbbbbbbbbbbbbbbbbbbbbbbbbbbbbbbbbbbbbbbbbbbbbbbb\"\nspent = true\n";

/// Checks that a file is created.
fn check_created(rt: &impl Abort, files: &mut impl Files, path: &str) {
    assert!(rt; files.create(path).is_ok());
}

/// Checks that a file isn't created.
fn check_not_created(rt: &impl Abort, files: &mut impl Files, path: &str) {
    assert!(rt; matches!(files.create(path), Err(FileFault::Failed)));
}

/// Checks that bytes are appended to a file.
fn check_appended(rt: &impl Abort, files: &mut impl Files, path: &str, bytes: &[u8]) {
    assert!(rt; files.append(path, bytes).is_ok());
}

/// Checks that bytes aren't appended to a file.
fn check_not_appended(rt: &impl Abort, files: &mut impl Files, path: &str, bytes: &[u8]) {
    assert!(rt; matches!(files.append(path, bytes), Err(FileFault::Failed)));
}

/// Checks which bytes are read from a file.
fn check_read(rt: &impl Abort, files: &mut impl Files, path: &str, bytes: &[u8]) {
    assert!(rt; files.read(path).is_ok_and(|read| read.as_slice() == bytes));
}

/// Checks that a file is read as an empty one.
fn check_empty(rt: &impl Abort, files: &mut impl Files, path: &str) {
    assert!(rt; files.read(path).is_ok_and(|read| read.is_empty()));
}

/// Checks that a file can't be read.
fn check_not_read(rt: &impl Abort, files: &mut impl Files, path: &str) {
    assert!(rt; matches!(files.read(path), Err(FileFault::Failed)));
}

/// Checks which bytes a file holds for other programs.
fn check_held<R: rt::Files + AllocGlobal + Abort>(rt: &R, path: &str, bytes: &[u8]) {
    assert!(rt; fs::read(rt, path).is_ok_and(|held| held.as_slice() == bytes));
}

/// Writes a file without these calls.
fn write<R: rt::Files + Abort>(rt: &R, path: &str, bytes: &[u8]) {
    assert!(rt; fs::write(rt, path, bytes).is_ok());
}

/// Removes a file, which must be there.
fn remove<R: rt::Files + Abort>(rt: &R, path: &str) {
    assert!(rt; fs::remove_file(rt, path).is_ok());
}

/// Checks that a file is accessible to its owner alone.
fn check_mode<R: rt::Files + Abort>(rt: &R, path: &str) {
    assert!(rt; fs::metadata(rt, path).is_ok_and(|known| known.mode() & 0o777 == 0o600));
}

/// Checks that two files hold what is appended to them, and that one of them is empty once it is created again.
fn check_two_files<R: rt::Files + Abort>(rt: &R, files: &mut impl Files) {
    check_created(rt, files, "appended");
    check_appended(rt, files, "appended", b"one ");
    check_created(rt, files, "other");
    check_appended(rt, files, "other", b"x");
    check_appended(rt, files, "appended", b"two");
    check_read(rt, files, "appended", b"one two");
    check_created(rt, files, "appended");
    check_empty(rt, files, "appended");
    remove(rt, "appended");
    remove(rt, "other");
}

#[test]
fn appended_bytes_are_read_back(rt: HostRuntime) {
    check_two_files(&rt, &mut RealFiles::new(&rt));
}

/// Checks that a missing file isn't read, and that no file is created in a missing folder.
fn check_missing(rt: &impl Abort, files: &mut impl Files) {
    check_not_read(rt, files, "missing");
    check_not_created(rt, files, "no folder/file");
}

#[test]
fn a_missing_file_fails(rt: HostRuntime) {
    check_missing(&rt, &mut RealFiles::new(&rt));
}

/// Checks that an append to a missing file fails, and doesn't create it.
fn check_append_to_none(rt: &impl Abort, files: &mut impl Files) {
    check_not_appended(rt, files, "not created", b"x");
    check_not_read(rt, files, "not created");
}

#[test]
fn an_append_to_a_file_that_was_not_created_fails(rt: HostRuntime) {
    check_append_to_none(&rt, &mut RealFiles::new(&rt));
}

/// Checks that a file that one run creates isn't created by another one, which can read it.
fn check_owned<R: rt::Files + Abort>(rt: &R, one: &mut impl Files, two: &mut impl Files) {
    check_created(rt, one, "owned");
    check_appended(rt, one, "owned", b"one");
    check_not_created(rt, two, "owned");
    check_appended(rt, one, "owned", b" more");
    check_read(rt, two, "owned", b"one more");
    check_mode(rt, "owned");
    remove(rt, "owned");
}

#[test]
fn a_file_that_a_run_creates_is_its_own(rt: HostRuntime) {
    check_owned(&rt, &mut RealFiles::new(&rt), &mut RealFiles::new(&rt));
}

/// Checks that a key that wasn't read isn't created, and stays.
fn check_unread<R: rt::Files + AllocGlobal + Abort>(rt: &R, files: &mut impl Files) {
    write(rt, "unread key", FRESH);
    check_not_created(rt, files, "unread key");
    check_held(rt, "unread key", FRESH);
    remove(rt, "unread key");
}

#[test]
fn a_key_that_was_not_read_is_not_created(rt: HostRuntime) {
    check_unread(&rt, &mut RealFiles::new(&rt));
}

/// Checks that a key that was read is created, but stays if another key is appended to it.
fn check_kept<R: rt::Files + AllocGlobal + Abort>(rt: &R, files: &mut impl Files) {
    write(rt, "kept key", FRESH);
    check_read(rt, files, "kept key", FRESH);
    check_created(rt, files, "kept key");
    check_not_appended(rt, files, "kept key", OTHER);
    check_held(rt, "kept key", FRESH);
    remove(rt, "kept key.new");
    remove(rt, "kept key");
}

#[test]
fn a_key_is_not_replaced_by_another_one(rt: HostRuntime) {
    check_kept(&rt, &mut RealFiles::new(&rt));
}

/// Checks that a key that was read stays until the same key is appended to it.
fn check_replaced<R: rt::Files + AllocGlobal + Abort>(rt: &R, files: &mut impl Files) {
    check_read(rt, files, "own key", FRESH);
    check_created(rt, files, "own key");
    check_held(rt, "own key", FRESH);
    check_empty(rt, files, "own key");
    check_appended(rt, files, "own key", SPENT);
    check_held(rt, "own key", SPENT);
    check_not_created(rt, files, "own key");
}

/// Checks that a key that was replaced isn't created by a run that read it before.
fn check_changed<R: rt::Files + AllocGlobal + Abort>(
    rt: &R,
    files: &mut impl Files,
    late: &mut impl Files,
) {
    write(rt, "own key", FRESH);
    check_read(rt, late, "own key", FRESH);
    check_replaced(rt, files);
    check_not_created(rt, late, "own key");
    remove(rt, "own key");
}

#[test]
fn a_key_is_written_over_by_itself(rt: HostRuntime) {
    check_changed(&rt, &mut RealFiles::new(&rt), &mut RealFiles::new(&rt));
}
