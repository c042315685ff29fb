//! The limits on what a link takes between two ticks.
use bar_outside::LARGEST_PACKET;

/// How many datagrams are taken between two ticks. In one tick the parties of a session send a peer less than a thousand: a manifest, 128
/// blocks, a REQUEST and a QUERY from each of 199 peers, and those of six exchanges. The limit is a quarter of the number after which
/// pacing inserts a tick, so datagrams received never move the clock.
const MOST_DATAGRAMS: u32 = 16_384;

/// How many bytes these datagrams may have in all. Those from the parties have less than five million, with the longest signatures.
const MOST_BYTES: usize = 8 << 20;

/// How many datagrams and bytes are still taken before the next tick.
#[derive(Drop)]
pub struct Room {
    datagrams: u32,
    bytes: usize,
}

/// The least and the most bytes of a datagram of this kind in any session: a signature has at most 9,004.
fn lengths_of(kind: u8) -> (usize, usize) {
    match kind {
        1 => (21, 13_121),
        2 => (1_045, 1_045),
        3 => (84, 9_088),
        4 => (20, 9_280),
        5 => (52, 308),
        6 => (52, 9_568),
        7 => (21, 9_537),
        8 => (24, 30_533),
        9 => (22, 22),
        10 => (54, 9_058),
        11 => (20, LARGEST_PACKET),
        12 => (21, 9_425),
        _ => (1, 0),
    }
}

/// Whether a datagram may belong to a session, by its first bytes and its length.
fn may_be_read(datagram: &[u8]) -> bool {
    match datagram {
        [0xba, 0x47, 1 | 2 | 3, kind, ..] => {
            let (least, most) = lengths_of(*kind);
            least <= datagram.len() && datagram.len() <= most
        }
        _ => false,
    }
}

impl Room {
    /// The full room at the start of a tick.
    pub fn new() -> Room {
        Room {
            datagrams: MOST_DATAGRAMS,
            bytes: MOST_BYTES,
        }
    }

    /// Whether a datagram is taken. If so, the room shrinks by it.
    pub fn takes(&mut self, datagram: &[u8]) -> bool {
        if !may_be_read(datagram) || self.datagrams == 0 || self.bytes < datagram.len() {
            return false;
        }
        self.datagrams -= 1;
        self.bytes -= datagram.len();
        true
    }
}
