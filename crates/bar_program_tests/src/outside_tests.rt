//! Tests of files, sinks, links and spawners in memory.
use crate::outcome::words_of;
use bar_outside::{
    ChildFault, Fault, FileFault, Files, Link, LinkFault, MemCall, MemFiles, MemLink, MemSink,
    MemSpawner, MemTaken, Place, Sink, SinkFault, Spawner, Taken, append_file, bind_link,
    create_file, read_file, receive_next, send_datagram, show_bytes,
};
use std::alloc::{AllocError, Global};
use std::process::Abort;
use std::test::Fail;

/// Checks what a file holds.
fn check_held(rt: &impl Abort, files: &MemFiles, path: &str, bytes: &[u8]) {
    assert!(rt; files.get(path) == Some(bytes), "{path}");
}

#[test]
fn files_are_created_and_read(rt: HostRuntime) -> Result<(), Fail> {
    let alloc = rt.alloc();
    let mut files = MemFiles::make(alloc, [3].to_vec(alloc)?);
    files.put("old", b"ab")?;
    assert!(rt; read_file(&mut files, "old").is_ok());
    assert!(rt; create_file(&mut files, "new").is_ok());
    assert!(rt; create_file(&mut files, "old") == Err(Fault::File));
    check_held(&rt, &files, "old", b"ab");
    check_held(&rt, &files, "new", b"");
    Ok(())
}

#[test]
fn a_failed_append_writes_half_of_its_bytes(rt: HostRuntime) -> Result<(), Fail> {
    let alloc = rt.alloc();
    let mut files = MemFiles::make(alloc, [3].to_vec(alloc)?);
    assert!(rt; create_file(&mut files, "new").is_ok());
    assert!(rt; append_file(&mut files, "new", b"cdef").is_ok());
    assert!(rt; files.append("new", b"ghij") == Err(FileFault::Failed));
    check_held(&rt, &files, "new", b"cdefgh");
    Ok(())
}

#[test]
fn a_missing_file_is_a_fault(rt: HostRuntime) {
    let mut files = MemFiles::make(rt.alloc(), Vec::new(rt.alloc()));
    assert!(rt; append_file(&mut files, "none", b"x") == Err(Fault::File));
    assert!(rt; read_file(&mut files, "none").err() == Some(Fault::File));
    assert!(rt; files.get("none").is_none());
}

#[test]
fn a_sink_in_memory(rt: HostRuntime) -> Result<(), Fail> {
    let alloc = rt.alloc();
    let mut sink = MemSink::make(alloc, [2].to_vec(alloc)?);
    assert!(rt; show_bytes(&mut sink, b"ab").is_ok());
    assert_eq!(rt; sink.write(b"cdef"), Err(SinkFault::Failed));
    assert!(rt; show_bytes(&mut sink, b"g").is_ok());
    assert_eq!(rt; sink.bytes(), b"abcdg".as_slice());
    Ok(())
}

/// A link of one tick, which is bound and whose call 4 fails.
fn bound_link(rt: &impl Abort, alloc: Global) -> Result<MemLink, AllocError> {
    let mut list = Vec::new(alloc);
    list.push(MemTaken::Tick)?;
    let mut link = MemLink::make(alloc, list, [4].to_vec(alloc)?);
    assert!(rt; bind_link(&mut link, 2, 4000, 7, 250).is_ok());
    Ok(link)
}

#[test]
fn a_link_knows_its_place(rt: HostRuntime) -> Result<(), Fail> {
    let link = bound_link(&rt, rt.alloc())?;
    let place = Place {
        me: 2,
        port: 4000,
        begin_ms: 7,
        tick_ms: 250,
    };
    assert!(rt; link.place() == Some(place));
    Ok(())
}

#[test]
fn a_link_gives_its_inputs_and_then_its_end(rt: HostRuntime) -> Result<(), Fail> {
    let mut link = bound_link(&rt, rt.alloc())?;
    let mut buf = vec![in rt.alloc(); 0; 65_507]?;
    assert!(rt; receive_next(&mut link, &mut buf) == Ok(Taken::Tick));
    assert!(rt; send_datagram(&mut link, 1, b"ab").is_ok());
    assert!(rt; link.next(&mut buf) == Err(LinkFault::Failed));
    assert!(rt; link.next(&mut buf) == Ok(Taken::End));
    assert!(rt; link.sent().len() == 1);
    Ok(())
}

/// Starts a child by these words.
fn start(rt: &impl Abort, spawner: &mut MemSpawner, words: &[String]) -> Result<usize, ChildFault> {
    assert!(rt; 0 < words.len());
    spawner.start(words)
}

/// Checks that this call started a child by the words of a line.
fn check_started(
    rt: &impl Abort,
    alloc: Global,
    call: Option<&MemCall>,
    line: &str,
    child: usize,
) -> Result<(), AllocError> {
    let words = words_of(alloc, line)?;
    assert!(rt; call == Some(&MemCall::Started { words, child }));
    Ok(())
}

#[test]
fn a_spawner_in_memory_numbers_its_children(rt: HostRuntime) -> Result<(), Fail> {
    let alloc = rt.alloc();
    let mut spawner = MemSpawner::make(alloc, Vec::new(alloc), [2].to_vec(alloc)?);
    let (words, more) = (words_of(alloc, "bar")?, words_of(alloc, "bar peer")?);
    assert!(rt; start(&rt, &mut spawner, &words) == Ok(0));
    assert!(rt; start(&rt, &mut spawner, &words) == Err(ChildFault::Failed));
    assert!(rt; start(&rt, &mut spawner, &more) == Ok(1));
    assert!(rt; spawner.calls().len() == 2);
    check_started(&rt, alloc, spawner.calls().first(), "bar", 0)?;
    check_started(&rt, alloc, spawner.calls().last(), "bar peer", 1)?;
    Ok(())
}
