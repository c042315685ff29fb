use bar_record::{Items, RecordFault, head, read};
use bar_wire::Input;
use std::alloc::{AllocError, Global};
use std::process::Abort;
use std::test::Fail;

const ID: [u8; 8] = [0x00, 0x11, 0x22, 0x33, 0x44, 0x55, 0x66, 0x77];

/// The head of party 2's recording.
const HEAD: [u8; 15] = [
    0x42, 0x41, 0x52, 0x4c, 0x01, 0x00, 0x11, 0x22, 0x33, 0x44, 0x55, 0x66, 0x77, 0x00, 0x02,
];

/// The bytes of a datagram, or none for a tick.
fn datagram_of(input: Input<'_>) -> Option<&[u8]> {
    match input {
        Input::Tick => None,
        Input::Datagram(bytes) => Some(bytes),
    }
}

/// The recording of party 2 with these entries.
fn recording_of(alloc: Global, entries: &[u8]) -> Result<Vec<u8>, AllocError> {
    let mut bytes = HEAD.to_vec(alloc)?;
    bytes.extend_from_slice(entries)?;
    Ok(bytes)
}

/// Checks the datagrams of a recording in order, `None` for a tick.
fn check_items(rt: &impl Abort, items: &mut Items<'_>, wanted: &[Option<&[u8]>]) {
    for datagram in wanted {
        assert!(rt; items.next().map(datagram_of) == Some(*datagram));
    }
    assert!(rt; items.next().is_none());
}

#[test]
fn a_recording_begins_with_its_head(rt: HostRuntime) {
    assert_eq!(rt; head(&ID, 2), HEAD);
}

#[test]
fn a_recording_of_nothing_is_read(rt: HostRuntime) -> Result<(), Fail> {
    let bytes = recording_of(rt.alloc(), &[0])?;
    assert!(rt; read(&bytes, &ID, 2, 120)?.next().is_none());
    Ok(())
}

#[test]
fn a_recording_is_read_in_order(rt: HostRuntime) -> Result<(), Fail> {
    let bytes = recording_of(rt.alloc(), &[1, 2, 0, 3, 0, 1, 2, 2, 0, 0, 1, 0])?;
    let wanted: [Option<&[u8]>; 4] = [None, Some(&[0, 1, 2]), Some(&[]), None];
    check_items(&rt, &mut read(&bytes, &ID, 2, 2)?, &wanted);
    Ok(())
}

#[test]
fn faults_are_shown_by_their_names(rt: HostRuntime) -> Result<(), Fail> {
    let rows = [
        (RecordFault::BadHead, "BadHead"),
        (RecordFault::BadEntry { at: 15 }, "BadEntry"),
        (RecordFault::NoEnd, "NoEnd"),
        (RecordFault::AfterEnd, "AfterEnd"),
        (RecordFault::AfterLast { at: 15 }, "AfterLast"),
    ];
    for (fault, name) in rows {
        assert_eq!(rt; format!(in rt.alloc(); "{fault}")?.as_str(), name);
    }
    Ok(())
}
