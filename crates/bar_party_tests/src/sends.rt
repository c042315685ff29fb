//! Datagrams that a party sends, for tests of peers and broadcasters.

use bar_core::Core;
use bar_wire::LARGEST_DATAGRAM;
use std::alloc::{AllocError, Global};

/// A datagram and its receiver.
#[derive(Drop)]
pub struct Sent {
    pub to: u16,
    pub bytes: Vec<u8>,
}

/// Whether a datagram begins with these bytes.
pub fn begins(sent: &Sent, front: &[u8]) -> bool {
    sent.bytes.starts_with(front)
}

/// More outputs than any input causes.
pub const MANY: usize = 200;

/// Adds all datagrams that a party has still to give out.
pub fn add_sends<C: Core>(
    alloc: Global,
    party: &mut C,
    sends: &mut Vec<Sent>,
) -> Result<(), AllocError> {
    let mut buf = vec![in alloc; 0; usize::from(LARGEST_DATAGRAM)]?;
    for _ in 0..MANY {
        let Some((to, len)) = party.give_datagram(&mut buf) else {
            return Ok(());
        };
        let bytes = buf.get(..len).unwrap_or(b"").to_vec(alloc)?;
        sends.push(Sent { to, bytes })?;
    }
    Ok(())
}
