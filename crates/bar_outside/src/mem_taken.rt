/// An item that an in-memory link is to give.
#[derive(Drop)]
pub enum MemTaken {
    Tick,
    /// A datagram of at most 65,507 bytes.
    Datagram(Vec<u8>),
}
