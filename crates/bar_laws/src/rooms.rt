//! Exchanges are few, and their rooms are large enough.

ghost use Rattle.bar_laws.specs.Rooms.{RunHasRooms, LogHasRooms, RunKeepsFew, LogKeepsFew, RunLeavesRoom, LogLeavesRoom};
ghost use Rattle.bar_laws.specs.Sizes.{RunFitsRooms, LogFitsRooms, LogKeepsShortEvidence, SignedAreShort};

/// For every list of inputs, each exchange of which a peer has admitted or signed anything has one of six rooms in its round, and no two
/// exchanges of a round have the same room. So it keeps at most six exchanges of each round, and six for each of the rounds that may still
/// be asked about, of which there are two more than an update lives. When it begins to keep another exchange, it kept fewer than these
/// before.
pub fn exchanges_are_few()
    // in the log after any list of inputs
    ensures run_rooms { RunHasRooms }
    ensures run { RunKeepsFew }
    ensures run_left { RunLeavesRoom }
    // in each log that obeys the rules
    ensures obedient_rooms { LogHasRooms }
    ensures obedient { LogKeepsFew }
    ensures obedient_left { LogLeavesRoom }
{}

/// For every list of inputs, no datagram that a peer admits has more bytes than the largest of its kind.
pub fn datagrams_fit_their_rooms()
    // in the log after any list of inputs
    ensures run { RunFitsRooms }
    // in each log that obeys the rules
    ensures obedient { LogFitsRooms }
{}

/// In each log that obeys the rules, the evidence kept against a party fits the party's room, and can be sent.
pub fn evidence_fits_its_room()
    ensures { LogKeepsShortEvidence }
{}

/// No signed datagram of a session has more bytes than a room for a checked datagram.
pub fn signed_datagrams_are_short()
    ensures { SignedAreShort }
{}
