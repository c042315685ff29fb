//! What was said can be written again from what is known.

ghost use Rattle.bar_laws.specs.Rewriting.{RunIsRewritten, LogIsRewritten};
ghost use Rattle.bar_laws.specs.Remembering.{RunIsRemembered, LogIsRemembered};

/// For every list of inputs, each datagram that a peer signed is the one that it would write and sign now, by what it knows now of the
/// exchange. So it can repeat its datagrams without keeping them. A memory that knows as much of the exchanges, holds the same blocks, and
/// writes again what was said has exactly the datagrams that were said, for as long as they may be repeated.
pub fn what_was_said_is_written_again()
    // for the log after any list of inputs
    ensures run { RunIsRewritten }
    ensures run_memory { RunIsRemembered }
    // for each log that obeys the rules
    ensures obedient { LogIsRewritten }
    ensures obedient_memory { LogIsRemembered }
{}
