//! Briefcases are sent again.

ghost use Rattle.bar_laws.specs.Again.{BriefcasesAreSaidAgain, MissingAreSaidAgain};

/// For every list of inputs, a tick of version 3 handles each briefcase that was said of an exchange whose partner isn't announced evicted.
/// It sends the briefcase exactly once if the round is at most two after the exchange's and no key of the exchange was said or admitted;
/// otherwise not at all. Directly before it a balanced initiator without the partner's briefcase sends DIVULGE. Directly after it a peer
/// with the partner's briefcase sends KEYREQ.
pub fn briefcases_are_said_again()
    ensures { BriefcasesAreSaidAgain }
{}

/// Suppose that nothing is forged, and that a trusted peer said a briefcase to a trusted partner, which hasn't admitted it. Then each tick
/// up to two rounds after the exchange's sends it again, unless somebody else asks for its key in the partner's name.
pub fn missing_briefcases_are_said_again()
    ensures { MissingAreSaidAgain }
{}
