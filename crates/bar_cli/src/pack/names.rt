//! The arguments of `pack`.

/// The files of `pack`: three that it reads, and the proof file.
#[derive(Clone, Copy, Debug)]
pub struct PackNames<'a> {
    pub session: &'a str,
    pub table: &'a str,
    pub evidence: &'a str,
    pub proof: &'a str,
}
