//! Tests of writing a party's findings to files in memory.
use bar_bytes::Rooms;
use bar_findings::write_findings;
use bar_outside::MemFiles;
use std::alloc::{AllocError, Global};
use std::process::Abort;
use std::test::Fail;

/// The manifest of round 3, whose length has two bytes that aren't zero.
fn third_manifest() -> [u8; 258] {
    [7; 258]
}

/// Manifests of rounds 1 and 3.
fn manifests_of(alloc: Global) -> Result<Rooms, AllocError> {
    let mut manifests = Rooms::make(alloc, 4, 300)?;
    manifests.keep(1, b"one");
    manifests.keep(3, &third_manifest());
    Ok(manifests)
}

/// Evidence against parties 2 and 12.
fn evidence_of(alloc: Global) -> Result<Rooms, AllocError> {
    let mut evidence = Rooms::make(alloc, 13, 8)?;
    evidence.keep(2, b"two");
    evidence.keep(12, b"twelve");
    Ok(evidence)
}

/// Writes these manifests and this evidence.
fn write(rt: &impl Abort, alloc: Global, files: &mut MemFiles) -> Result<(), AllocError> {
    let manifests = manifests_of(alloc)?;
    let evidence = evidence_of(alloc)?;
    let written = write_findings(alloc, &manifests, 3, &evidence, 12, "f", files);
    assert_eq!(rt; written, Ok(()));
    Ok(())
}

/// The table file of these manifests.
fn table() -> [u8; 265] {
    let mut table = [0; 265];
    table[..7].copy_from_slice(b"\x00\x03one\x01\x02");
    table[7..].copy_from_slice(&third_manifest());
    table
}

/// Checks the content of a file, if there is any.
fn check_file(rt: &impl Abort, files: &MemFiles, path: &str, expected: Option<&[u8]>) {
    assert_eq!(rt; files.get(path), expected);
}

#[test]
fn findings_in_memory(rt: HostRuntime) -> Result<(), Fail> {
    let alloc = rt.alloc();
    let mut files = MemFiles::make(alloc, Vec::new(alloc));
    files.put("f.table", b"old")?;
    write(&rt, alloc, &mut files)?;
    check_file(&rt, &files, "f.table", Some(&table()));
    check_file(&rt, &files, "f.2", Some(b"two"));
    check_file(&rt, &files, "f.12", Some(b"twelve"));
    check_file(&rt, &files, "f.1", None);
    Ok(())
}
