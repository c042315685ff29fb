/// The files of a replay.
#[derive(Clone, Copy, Debug)]
pub struct ReplayNames<'a> {
    pub session: &'a str,
    pub key: &'a str,
    pub recording: &'a str,
    pub played: &'a str,
    pub found: &'a str,
}
