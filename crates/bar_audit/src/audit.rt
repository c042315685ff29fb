//! An auditor.
ghost use Rattle.std.specs.Prelude.{◌<◌, ◌^◌, length};

use crate::findings::Findings;
use bar_window::Exchange;
use std::collections::BTreeSet;

/// What an auditor knows from the recordings of parties of one session, with their public keys alone.
#[derive(Drop)]
pub struct Audit {
    pub(crate) parties: BTreeSet<u16>,
    pub(crate) found: Findings,
    pub(crate) recorded: Vec<Exchange>,
    ghost few: { length recorded.items < 2 ^ 32 },
}
