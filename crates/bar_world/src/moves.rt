/// A move: what may happen next in a world.
#[derive(Drop)]
pub enum Move {
    /// A party takes a tick.
    TickOf(u16),
    /// A datagram of the pool arrives at its receiver.
    Deliver(u64),
    /// Arbitrary bytes arrive at a party.
    Hostile { to: u16, bytes: Vec<u8> },
}
