/// The input of one step of a core.
#[derive(Clone, Copy, Debug)]
pub enum Input<'a> {
    /// One tick of time passes.
    Tick,
    /// The bytes of a datagram that arrived.
    Datagram(&'a [u8]),
}
