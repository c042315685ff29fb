//! A check that an accepted datagram encodes to the same bytes again.

use crate::fuzz::stop::Stop;
use bar_wire::{Shape, WireFault, decode, encode};

/// What a decoded datagram says about itself.
#[derive(Clone, Copy)]
pub struct Told {
    pub from: u16,
    pub to: u16,
    pub is_signed: bool,
    pub message_len: usize,
}

/// What a datagram says about itself, or its fault. Checks that its message, encoded again, and its signature are all its bytes.
pub fn read_again(
    bytes: &[u8],
    shape: &Shape,
    out: &mut [u8],
) -> Result<Result<Told, WireFault>, Stop> {
    let view = match decode(bytes, shape) {
        Ok(view) => view,
        Err(fault) => return Ok(Err(fault)),
    };
    let message_len = view.message.len();
    if message_len > out.len() {
        return Err(Stop::Found("a message is longer than a datagram"));
    }
    let len = encode(view.from, view.to, &view.body, shape, out);
    if out.get(..len) != Some(view.message) {
        return Err(Stop::Found("a message is spelled otherwise"));
    }
    if bytes.get(..message_len) != Some(view.message) {
        return Err(Stop::Found("a message isn't in front"));
    }
    let signature = view.sig.unwrap_or(b"");
    if bytes.get(message_len..) != Some(signature) {
        return Err(Stop::Found("a signature isn't behind"));
    }
    Ok(Ok(Told {
        from: view.from,
        to: view.to,
        is_signed: view.sig.is_some(),
        message_len,
    }))
}
