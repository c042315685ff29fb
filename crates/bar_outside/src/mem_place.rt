/// What an in-memory link was bound to: a party, a session's port, the Unix time of the first tick and the length of a tick. Both times are
/// in milliseconds.
#[derive(Clone, Copy, Debug, PartialEq, Eq)]
pub struct Place {
    pub me: u16,
    pub port: u16,
    pub begin_ms: u64,
    pub tick_ms: u32,
}
