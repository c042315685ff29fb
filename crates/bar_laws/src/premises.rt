//! The premises of the laws can be met.

ghost use Rattle.bar_laws.specs.Premises.{SessionsExist, SetupsExist, PeersAreMembers, PlainMovesForgeNothing};

/// Objects that meet the premises exist, so no law holds vacuously.
pub fn premises_can_be_met()
    // a session of each number of peers
    ensures sessions { SessionsExist }
    // a setup for any session's numbers, any secrets and any stream
    ensures setups { SetupsExist }
    // each peer of a setup is a member of its session
    ensures members { PeersAreMembers }
    // a network that makes up no datagram forges no signature
    ensures honest { PlainMovesForgeNothing }
{}
