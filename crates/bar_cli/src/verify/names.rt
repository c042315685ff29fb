//! The arguments of `verify`.

/// The files of `verify`.
#[derive(Clone, Copy, Debug)]
pub struct VerifyNames<'a> {
    pub session: &'a str,
    pub proof: &'a str,
}
