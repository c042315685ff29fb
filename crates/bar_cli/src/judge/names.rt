//! The arguments of `judge`.

/// The files of a judge.
#[derive(Clone, Copy, Debug)]
pub struct JudgeNames<'a> {
    pub session: &'a str,
    pub table: &'a str,
    pub evidence: &'a str,
}
