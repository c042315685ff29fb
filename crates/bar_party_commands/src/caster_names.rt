/// The files of a broadcaster, and the Unix time of its first tick in milliseconds.
#[derive(Clone, Copy, Debug)]
pub struct CasterNames<'a> {
    pub session: &'a str,
    pub key: &'a str,
    pub begin_ms: u64,
    pub stream: &'a str,
    pub found: &'a str,
}
