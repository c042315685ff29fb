//! What a judge says.
ghost use Rattle.std.specs.Prelude.{Some};
ghost use Rattle.bar_judge.specs.Texts.{verdict_text};
ghost use Rattle.bar_judge.specs.Code.Verdicts.{plain_verdict};

use crate::fault::Fault;
use crate::why::Why;
use std::fmt;

/// What a judge says of evidence: the party that signed it and the fault, or why nothing is shown.
#[derive(Clone, Copy, Debug, PartialEq, Eq)]
pub enum Verdict {
    Shown { party: u16, fault: Fault },
    NotShown(Why),
}

impl fmt::Display for Verdict {
    ghost output = { λ v. Some (verdict_text (plain_verdict v)) };

    fn fmt<W: fmt::Write>(&self, f: &mut fmt::Formatter<W>) -> fmt::Result {
        match self {
            Verdict::Shown { party, fault } => write!(f, "party {party} fault {fault}"),
            Verdict::NotShown(why) => write!(f, "no fault: {why}"),
        }
    }
}
