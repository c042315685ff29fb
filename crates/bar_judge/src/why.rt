//! Why a judge shows nothing.
ghost use Rattle.std.specs.Prelude.{Some};
ghost use Rattle.bar_judge.specs.Texts.{why_text};
ghost use Rattle.bar_judge.specs.Code.Verdicts.{plain_why};

use std::fmt;

/// The first reason why evidence shows nothing.
#[derive(Clone, Copy, Debug, PartialEq, Eq)]
pub enum Why {
    /// A datagram doesn't decode or is of no kind that a peer signs, or the two have different senders.
    Malformed,
    /// A signature isn't accepted under the sender's key.
    NotSigned,
    /// The datagrams show no fault.
    Consistent,
    /// A CASE and the KEY for it show no fault, but the table lacks the round of a promised update.
    UnknownUpdate,
}

impl fmt::Display for Why {
    ghost output = { λ w. Some (why_text (plain_why w)) };

    fn fmt<W: fmt::Write>(&self, f: &mut fmt::Formatter<W>) -> fmt::Result {
        f.write_str(match self {
            Why::Malformed => "Malformed",
            Why::NotSigned => "NotSigned",
            Why::Consistent => "Consistent",
            Why::UnknownUpdate => "UnknownUpdate",
        })
    }
}
