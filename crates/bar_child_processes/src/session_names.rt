/// The arguments of a session: its text, the prefix of its key files' names, its stream, the Unix time of its first tick in milliseconds as
/// text, the prefix of its results' names, and the program that its children run.
#[derive(Clone, Copy, Debug)]
pub struct SessionNames<'a> {
    pub session: &'a str,
    pub keys: &'a str,
    pub stream: &'a str,
    pub begin: &'a str,
    pub results: &'a str,
    pub program: &'a str,
}
