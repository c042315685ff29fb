//! REQUESTs of peers, for tests of peers and broadcasters.

use crate::keys::equal_bytes;
use bar_samples::signed::{front, signed};
use bar_seal::LmsScheme;
use std::alloc::{AllocError, Global};

const REQUEST: u8 = 3;

/// The start of a REQUEST, up to its round.
pub fn request_front(alloc: Global, parties: [u8; 4], round: u8) -> Result<Vec<u8>, AllocError> {
    front(alloc, REQUEST, parties, round)
}

/// Appends 32 equal bytes.
fn add_equal(bytes: &mut Vec<u8>, byte: u8) -> Result<(), AllocError> {
    bytes.extend_from_slice(&equal_bytes(byte))
}

/// A REQUEST of round 6 from peer 1 to peer 2, with a seed of zeros and a commitment of 32 equal bytes, without its signature.
fn unsigned(alloc: Global, commitment: u8) -> Result<Vec<u8>, AllocError> {
    let mut message = request_front(alloc, [0, 1, 0, 2], 6)?;
    add_equal(&mut message, 0)?;
    add_equal(&mut message, commitment)?;
    Ok(message)
}

/// The same REQUEST with its signature.
pub fn request(alloc: Global, scheme: &LmsScheme, commitment: u8) -> Result<Vec<u8>, AllocError> {
    signed(alloc, scheme, 0, &unsigned(alloc, commitment)?)
}
