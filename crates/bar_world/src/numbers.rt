use bar_lms::Params;

/// The parameters of a session that its `Shape` doesn't contain.
#[derive(Clone, Copy)]
pub struct Numbers {
    /// The most updates that a side of an exchange gives, from 1 to 16.
    pub cap: u8,
    /// The number of peers to which the broadcaster sends each update, from 1 to the number of peers.
    pub fanout: u16,
    /// The port of the broadcaster. A peer's port is this plus its number.
    pub port: u16,
    /// The length of a tick in milliseconds.
    pub tick_ms: u32,
    /// The LMS and LM-OTS types of each party's key.
    pub params: Params,
}
