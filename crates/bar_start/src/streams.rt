//! Keeping the numbers 0, 1 and 2 for the standard streams.
use std::fs::OpenOptions;
use std::{io, rt};

/// The device that discards what is written to it.
const NULL_DEVICE: &str = "/dev/null";

/// Three handles of the null device. A standard stream that is closed when the program starts leaves its number free: the file or socket
/// that is opened next would get that number, and then what is printed. A handle gets the lowest free number, so while these three are
/// held, the numbers 0, 1 and 2 belong to the standard streams or the null device.
#[derive(Drop)]
pub struct HeldStreams<F> {
    first: F,
    second: F,
    third: F,
}

// Opens the null device for reading and writing.
fn open_null<R: rt::Files>(rt: &R) -> io::Result<R::File> {
    let mut how = OpenOptions::new();
    how.read(true).write(true);
    how.open(rt, NULL_DEVICE)
}

/// Holds the numbers of the standard streams, as long as the result is kept. It must be called before anything else is opened.
pub fn hold_streams<R: rt::Files>(rt: &R) -> io::Result<HeldStreams<R::File>> {
    let first = open_null(rt)?;
    let second = open_null(rt)?;
    let third = open_null(rt)?;
    Ok(HeldStreams {
        first,
        second,
        third,
    })
}
