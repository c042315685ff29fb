/// A datagram that an in-memory link sent, and its receiver.
#[derive(Drop)]
pub struct Sent {
    pub to: u16,
    pub bytes: Vec<u8>,
}
