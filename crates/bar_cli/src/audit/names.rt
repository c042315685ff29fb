//! The arguments of `audit`.

/// The session's text, the prefix of the recordings' names, and the first and the last party whose recordings are read.
#[derive(Clone, Copy, Debug)]
pub struct AuditNames<'a> {
    pub session: &'a str,
    pub results: &'a str,
    pub first: u16,
    pub last: u16,
}
