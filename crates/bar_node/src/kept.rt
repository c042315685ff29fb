/// The files to which a run appends: a peer's recording and its played file. A broadcaster has neither.
#[derive(Clone, Copy, Debug)]
pub struct Kept<'a> {
    pub recording: Option<&'a str>,
    pub played: Option<&'a str>,
}
