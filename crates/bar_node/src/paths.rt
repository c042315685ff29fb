/// The files of a peer's run: the played file and the recording, which are created and appended to, and the prefix of the names of the
/// files of what it found.
#[derive(Clone, Copy, Debug)]
pub struct Paths<'a> {
    pub played: &'a str,
    pub recording: &'a str,
    pub found: &'a str,
}
