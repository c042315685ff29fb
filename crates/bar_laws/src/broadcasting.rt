//! What the broadcaster of a session does, for every list of inputs.

ghost use Rattle.bar_laws.specs.Broadcasting.{EvictsExactly, ShownIsShort, SignsOnceARound, RepeatsManifests, LateManifestsAreAdmitted};
ghost use Rattle.bar_laws.specs.Broadcasting.{ServesTheOthers, GoesToTheFanout, FanoutsAreWhole, GoesOutTwice};

/// A party is evicted if and only if evidence arrived in time whose verdict, under the table at that moment, names the party. The first
/// such evidence is kept.
pub fn evicts_exactly_the_shown()
    ensures { EvictsExactly }
{}

/// Evidence that is shown against a party fits the room of a party.
pub fn shown_evidence_is_short()
    ensures { ShownIsShort }
{}

/// One manifest and at most one notice of evictions are signed a round, each with its own leaf of the key.
pub fn signs_once_a_round()
    ensures { SignsOnceARound }
{}

/// In version 3, from the second round to the one after the last, the tick of slot 2 sends the manifest of the round before to each peer
/// that isn't evicted, in increasing order. Every other tick of slot 2 sends nothing. None of these ticks signs anything. A peer that has
/// not admitted the manifest of the round before its own admits it.
pub fn manifests_are_said_again()
    ensures repeats { RepeatsManifests }
    ensures late { LateManifestsAreAdmitted }
{}

/// Nothing is sent to an evicted peer. If none is evicted, each update is sent to exactly as many peers as the session says, and twice to
/// each of them.
pub fn blocks_reach_their_fanout()
    ensures serves { ServesTheOthers }
    ensures receivers { GoesToTheFanout }
    ensures whole { FanoutsAreWhole }
    ensures twice { GoesOutTwice }
{}
