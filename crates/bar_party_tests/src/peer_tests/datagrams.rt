//! Datagrams of the broadcaster, for tests of peers.

use super::peers::tell;
use bar_hss::SessionScheme;
use bar_peer::Peer;
use bar_samples::signed::{block_with, front, signed};
use bar_seal::LmsScheme;
use sha2::{Digest, Sha256};
use std::alloc::{AllocError, Global};
use std::process::Abort;

const MANIFEST: u8 = 1;

const BLOCK: u8 = 2;

/// The block of an update, with its round and its index as content.
fn block(round: u8, index: u8) -> [u8; 1024] {
    block_with(2, [b'0'.wrapping_add(round), b'a'.wrapping_add(index)])
}

/// The manifest of `count` updates of a round.
pub fn manifest(
    alloc: Global,
    caster: &LmsScheme,
    round: u8,
    count: u8,
) -> Result<Vec<u8>, AllocError> {
    let mut message = front(alloc, MANIFEST, [0, 0, 0xff, 0xff], round)?;
    message.push(count)?;
    for index in 0..count {
        let block = block(round, index);
        message.extend_from_slice(&Sha256::digest(block.as_slice()))?;
    }
    signed(
        alloc,
        caster,
        2 * u32::from(round.saturating_sub(1)),
        &message,
    )
}

/// The BLOCK of an update.
fn block_message(alloc: Global, to: u8, update: (u8, u8)) -> Result<Vec<u8>, AllocError> {
    let (round, index) = update;
    let mut bytes = front(alloc, BLOCK, [0, 0, 0, to], round)?;
    bytes.push(index)?;
    bytes.extend_from_slice(&block(round, index))?;
    Ok(bytes)
}

/// Gives a peer the blocks of these updates, and checks that it sends nothing.
pub fn tell_blocks(
    rt: &impl Abort,
    alloc: Global,
    peer: &mut Peer<SessionScheme>,
    to: u8,
    updates: &[(u8, u8)],
) -> Result<(), AllocError> {
    for update in updates {
        let bytes = block_message(alloc, to, *update)?;
        tell(rt, alloc, peer, &bytes)?;
    }
    Ok(())
}
