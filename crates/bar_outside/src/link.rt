//! The source of ticks and datagrams, and the destination of datagrams.

/// The largest size of a datagram on a link, in bytes.
pub const LARGEST_PACKET: usize = 65_507;

/// Why a call of the link failed.
#[derive(Clone, Copy, Debug, PartialEq, Eq)]
pub enum LinkFault {
    /// The link refused the call. The fault count rose.
    Failed,
    NoMemory,
}

/// What a link gave.
#[derive(Clone, Copy, Debug, PartialEq, Eq)]
pub enum Taken {
    Tick,
    /// A datagram of this many bytes, stored at the start of the buffer.
    Datagram(usize),
    /// The link gives nothing more.
    End,
}

/// A link. `wire` represents what it is bound to, what it gave and what it sent.
pub trait Link {
    ghost use Rattle.std.specs.Prelude.{◌≤◌, length};
    ghost use Rattle.bar_outside.specs.Wire.{Wire, Acts, Takes, bound_by, bound_to, largest_packet, sent_to};

    ghost wire: { Self → Wire };

    /// Binds the link to a party of a session on this port. The first tick is due at `begin_ms` of Unix time, and the following ones every
    /// `tick_ms`. After a fault the binding is unchanged.
    fn bind(&mut self, me: u16, port: u16, begin_ms: u64, tick_ms: u32) -> Result<(), LinkFault>
        ensures { Acts (bound_to (bound_by me port begin_ms tick_ms)) (wire self.old) (wire self.new) result };

    /// Takes the next item: a tick, a datagram or the end. A datagram is written to the start of the buffer and has at most 65,507 bytes.
    /// The buffer has room for the largest datagram. After a fault nothing was taken.
    fn next(&mut self, buf: &mut [u8]) -> Result<Taken, LinkFault>
        requires { largest_packet ≤ length buf.old }
        ensures { Takes buf.new (wire self.old) (wire self.new) result };

    /// Sends a datagram to a party. After a fault nothing was sent.
    fn send(&mut self, to: u16, bytes: &[u8]) -> Result<(), LinkFault>
        ensures { Acts (sent_to to bytes.now) (wire self.old) (wire self.new) result };
}
