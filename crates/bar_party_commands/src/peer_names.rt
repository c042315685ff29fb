/// The files of a peer, and the Unix time of its first tick in milliseconds.
#[derive(Clone, Copy, Debug)]
pub struct PeerNames<'a> {
    pub session: &'a str,
    pub key: &'a str,
    pub begin_ms: u64,
    pub played: &'a str,
    pub recording: &'a str,
    pub found: &'a str,
}
