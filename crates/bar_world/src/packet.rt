/// A datagram that was sent, and its receiver.
#[derive(Drop)]
pub struct Packet {
    pub to: u16,
    pub bytes: Vec<u8>,
}
