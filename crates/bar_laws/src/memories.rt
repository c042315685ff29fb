//! What the memory of a peer may rely on.

ghost use Rattle.bar_laws.specs.Soundness.{LogIsSound};

/// In each log that obeys the rules, what was heard has an encoding, and what was heard or said under a kind, exchange and side is of them.
/// The admitted manifests are of rounds up to the next one. Each exchange with a seat has an admitted request. If a CASE was said, its
/// sender holds the updates that it promises. If one was heard from the other side, this side has said one, and the CASE has the expected
/// terms and counts.
pub fn logs_are_sound()
    ensures { LogIsSound }
{}
