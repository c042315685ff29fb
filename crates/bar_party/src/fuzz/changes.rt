//! Random changes of bytes: of datagrams, files and texts.

use crate::fuzz::drawing::Draw;
use std::alloc::{AllocError, Global};

/// Numbers at the end of a range, or at which a byte overflows.
const EDGES: [u32; 20] = [
    0,
    1,
    2,
    3,
    4,
    8,
    16,
    17,
    0x7f,
    0x80,
    0xff,
    0x100,
    0x7fff,
    0xffe3,
    0xffff,
    0x1_0000,
    0x7fff_ffff,
    0x8000_0000,
    0xffff_fffe,
    0xffff_ffff,
];

/// The widths, in bytes, of numbers that are set to an edge.
const WIDTHS: [usize; 3] = [1, 2, 4];

const BITS: [u8; 8] = [1, 2, 4, 8, 16, 32, 64, 128];

/// Every other place is drawn among this many first bytes, which hold a datagram's header and first fields.
const FRONT: usize = 28;

/// A random place in bytes of this length.
fn place_in(draw: &mut Draw, len: usize) -> usize {
    if draw.is_one_in(2) {
        draw.below(len.min(FRONT))
    } else {
        draw.below(len)
    }
}

/// Overwrites the bytes from a place on, and drops what is past the end.
fn put_over(bytes: &mut [u8], at: usize, new: &[u8]) {
    for (before, byte) in new.iter().enumerate() {
        if let Some(place) = bytes.get_mut(at.saturating_add(before)) {
            *place = *byte;
        }
    }
}

/// Flips a bit of a byte, replaces the byte, or adds or subtracts 1.
fn change_byte(draw: &mut Draw, bytes: &mut [u8]) {
    let at = place_in(draw, bytes.len());
    let bit = BITS.get(draw.below(BITS.len())).copied().unwrap_or(1);
    let other = draw.byte();
    let case = draw.below(4);
    if let Some(byte) = bytes.get_mut(at) {
        *byte = match case {
            0 => other,
            1 => byte.wrapping_add(1),
            2 => byte.wrapping_sub(1),
            _ => *byte ^ bit,
        };
    }
}

/// Sets a number to one of `EDGES`.
fn put_edge(draw: &mut Draw, bytes: &mut [u8]) {
    let edge = EDGES.get(draw.below(EDGES.len())).copied().unwrap_or(0);
    let width = WIDTHS.get(draw.below(WIDTHS.len())).copied().unwrap_or(1);
    let at = place_in(draw, bytes.len());
    let number = edge.to_be_bytes();
    let from = number.len().saturating_sub(width);
    put_over(bytes, at, number.get(from..).unwrap_or(b""));
}

/// Appends some bytes, rarely more than a datagram can have.
fn lengthen(draw: &mut Draw, bytes: &mut Vec<u8>) -> Result<(), AllocError> {
    if draw.is_one_in(500) {
        let len = draw.below(70_000).max(bytes.len());
        let byte = draw.byte();
        bytes.resize(len, byte)?;
    }
    for _ in 0..draw.below(4).saturating_add(1) {
        let byte = draw.byte();
        bytes.push(byte)?;
    }
    Ok(())
}

/// Removes a byte.
fn leave_out(draw: &mut Draw, bytes: &mut Vec<u8>) {
    let at = place_in(draw, bytes.len());
    if at < bytes.len() {
        bytes.remove(at);
    }
}

/// Inserts a byte.
fn put_in(draw: &mut Draw, bytes: &mut Vec<u8>) -> Result<(), AllocError> {
    let at = place_in(draw, bytes.len());
    let byte = draw.byte();
    if at <= bytes.len() {
        bytes.insert(at, byte)?;
    }
    Ok(())
}

/// Keeps a prefix and appends a suffix of `other`, from the same place or another one.
fn splice(draw: &mut Draw, bytes: &mut Vec<u8>, other: &[u8]) -> Result<(), AllocError> {
    let at = place_in(draw, bytes.len());
    let from = if draw.is_one_in(2) {
        at
    } else {
        place_in(draw, other.len())
    };
    bytes.truncate(at);
    bytes.extend_from_slice(other.get(from..).unwrap_or(b""))?;
    Ok(())
}

/// Overwrites a part with the bytes of `other` at the same place.
fn put_part(draw: &mut Draw, bytes: &mut [u8], other: &[u8]) {
    let at = place_in(draw, bytes.len());
    let until = at.saturating_add(draw.below(64));
    let part = other.get(at..until.min(other.len())).unwrap_or(b"");
    put_over(bytes, at, part);
}

/// Makes one change to some bytes. Some changes splice in bytes of `other`.
pub fn change(draw: &mut Draw, bytes: &mut Vec<u8>, other: &[u8]) -> Result<(), AllocError> {
    match draw.below(12) {
        0 => {
            let len = draw.below(bytes.len());
            bytes.truncate(len);
        }
        1 => lengthen(draw, bytes)?,
        2 => leave_out(draw, bytes),
        3 => put_in(draw, bytes)?,
        4 => splice(draw, bytes, other)?,
        5 => put_part(draw, bytes, other),
        6 | 7 | 8 => put_edge(draw, bytes),
        _ => change_byte(draw, bytes),
    }
    Ok(())
}

/// The places at which the lines of a text begin.
fn line_starts(alloc: Global, bytes: &[u8]) -> Result<Vec<usize>, AllocError> {
    let mut starts = Vec::new(alloc);
    starts.push(0)?;
    for (at, byte) in bytes.iter().enumerate() {
        if *byte == b'\n' {
            starts.push(at.saturating_add(1))?;
        }
    }
    Ok(starts)
}

/// Replaces the first digit from a place on.
fn change_digit(draw: &mut Draw, bytes: &mut [u8]) {
    let from = draw.below(bytes.len());
    let new = b"0123456789abcdefABCDEF"
        .get(draw.below(22))
        .copied()
        .unwrap_or(b'0');
    for byte in bytes.iter_mut().skip(from) {
        if byte.is_ascii_hexdigit() {
            *byte = new;
            return;
        }
    }
}

/// Lines that may occur between those of a text, or aren't allowed in it.
const LINES: [&[u8]; 6] = [
    b"\n",
    b"# a note\n",
    b"  \t\n",
    b"spent = false\n",
    b"top = 5\n",
    b"[[peer]]\n",
];

/// Drops a line of a text, doubles it, moves it to the end, or inserts another before it.
fn change_line(draw: &mut Draw, alloc: Global, bytes: &mut Vec<u8>) -> Result<(), AllocError> {
    let starts = line_starts(alloc, bytes)?;
    let number = draw.below(starts.len());
    let from = starts.get(number).copied().unwrap_or(0);
    let until = starts
        .get(number.saturating_add(1))
        .copied()
        .unwrap_or(bytes.len());
    let front = bytes.get(..from).unwrap_or(b"").to_vec(alloc)?;
    let line = bytes.get(from..until).unwrap_or(b"").to_vec(alloc)?;
    let rest = bytes.get(until..).unwrap_or(b"").to_vec(alloc)?;
    bytes.clear();
    bytes.extend_from_slice(&front)?;
    match draw.below(4) {
        0 => bytes.extend_from_slice(&rest)?,
        1 => {
            bytes.extend_from_slice(&line)?;
            bytes.extend_from_slice(&line)?;
            bytes.extend_from_slice(&rest)?;
        }
        2 => {
            bytes.extend_from_slice(&rest)?;
            bytes.extend_from_slice(&line)?;
        }
        _ => {
            let other = LINES.get(draw.below(LINES.len())).copied().unwrap_or(b"");
            bytes.extend_from_slice(other)?;
            bytes.extend_from_slice(&line)?;
            bytes.extend_from_slice(&rest)?;
        }
    }
    Ok(())
}

/// Makes one change to a text.
pub fn change_text(
    draw: &mut Draw,
    alloc: Global,
    bytes: &mut Vec<u8>,
    other: &[u8],
) -> Result<(), AllocError> {
    match draw.below(4) {
        0 => change(draw, bytes, other),
        1 => change_line(draw, alloc, bytes),
        _ => {
            change_digit(draw, bytes);
            Ok(())
        }
    }
}
