use crate::packet::Packet;
use bar_caster::Caster;
use bar_hss::SessionScheme;
use bar_peer::Peer;
use std::alloc::Global;

/// All parties of a session, and every datagram that was sent.
#[derive(Drop)]
pub struct World {
    pub(crate) alloc: Global,
    pub(crate) caster: Caster<SessionScheme>,
    /// The peers, starting with peer 1.
    pub(crate) peers: Vec<Peer<SessionScheme>>,
    /// What each party played, starting with the broadcaster.
    pub(crate) played: Vec<Vec<u8>>,
    pub(crate) pool: Vec<Packet>,
    /// A buffer for one datagram.
    pub(crate) buf: Vec<u8>,
}
