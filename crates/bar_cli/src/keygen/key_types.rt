//! The types of a key's signatures.
ghost use Rattle.bar_session.specs.Sessions.{AreLevels};

use bar_lms::{Height, Params};

/// The types of the trees that sign messages, and the height of the upper tree if there are two levels.
#[derive(Clone, Copy, Debug)]
pub struct KeyTypes {
    pub top: Option<Height>,
    pub params: Params,
    ghost levels: { AreLevels top params },
}
