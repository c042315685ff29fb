//! Requests are made and admitted.

ghost use Rattle.bar_progress.specs.Requests.{RequestsAreAdmitted, RequestsAreMade};

use bar_laws::obedience::signed_by_rule;
use bar_laws::own_runs::parties_run_alone;
use bar_laws::premises::premises_can_be_met;

/// At the first slot of each round a peer sends a REQUEST to the partner that the round's seed chooses, unless it is announced evicted or
/// owes the peer a key.
pub fn requests_are_made()
    ensures { RequestsAreMade }
{}

/// Whatever is forged, the receiver of a REQUEST that a peer of a world has signed admits it under these conditions. The receiver is in
/// time, has a seat left, hasn't announced the peer evicted, and is owed no key by it.
pub fn requests_are_admitted()
    ensures { RequestsAreAdmitted }
{
    parties_run_alone();
    premises_can_be_met();
    signed_by_rule();
}
