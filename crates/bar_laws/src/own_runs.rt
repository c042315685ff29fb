//! A party of a world behaves as in its own run.

ghost use Rattle.bar_laws.specs.OwnRuns.{PeersRun, BroadcasterRuns, GivenIsGenuine};

/// In every world that any moves make of a setup, each party's log is that of its own run over the inputs that the moves gave it; so are
/// what it has played and what it has sent. So what holds of every run of a peer holds of each peer of a world.
pub fn parties_run_alone()
    ensures peers { PeersRun }
    ensures broadcaster { BroadcasterRuns }
{}

/// If nothing is forged, each signed datagram of a trusted party that the moves gave any party was signed by the trusted party, whether it
/// was admitted or not.
pub fn what_was_given_is_genuine()
    ensures { GivenIsGenuine }
{}
