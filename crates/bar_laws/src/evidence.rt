//! What holds of the evidence that a peer keeps, for every list of inputs.

ghost use Rattle.bar_laws.specs.Evidence.{BadKeysLeaveEvidence, KeptEvidenceIsShown};
ghost use Rattle.bar_laws.specs.Tries.{RunTriesAll, OthersAreTriedByLeaves};

use bar_case::laws::what_opens_badly_stays_so;

/// If a KEY was admitted that opens the CASE of its exchange badly, evidence against the partner is kept.
pub fn bad_keys_leave_evidence()
    ensures { BadKeysLeaveEvidence }
{}

/// The evidence kept against a party shows a fault of this party, and of no other, under every table that extends the peer's.
pub fn kept_evidence_is_shown()
    ensures { KeptEvidenceIsShown }
{
    what_opens_badly_stays_so();
}

/// For every list of inputs, a datagram is tried with each one that was admitted from its sender in any exchange that may still be asked
/// about.
pub fn tries_miss_none()
    ensures { RunTriesAll }
{}

/// With datagrams admitted in other exchanges, a datagram is tried by the leaves of the signatures alone.
pub fn others_are_tried_by_leaves()
    ensures { OthersAreTriedByLeaves }
{}
