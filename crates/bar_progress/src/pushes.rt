//! Pushes are completed.

ghost use Rattle.bar_progress.specs.Pushes.{PushesComplete};
ghost use Rattle.bar_progress.specs.Pushing.{PushesAreCompleted};

use bar_laws::knowing::knowledge_is_enough;
use bar_laws::obedience::signed_by_rule;
use bar_laws::own_runs::parties_run_alone;
use bar_laws::parties::{keys_open_well, nobody_is_accused, sent_is_accepted};
use bar_laws::premises::premises_can_be_met;
use bar_terms::laws::promises_are_equally_long;

/// A push of two peers whose datagrams arrive in order and in time is complete after eight: each side has opened as much as was agreed,
/// junk included, and has the other's key.
pub fn pushes_are_completed()
    ensures { PushesAreCompleted }
{
    promises_are_equally_long();
}

/// Between two trusted peers of a world, whatever hostile parties did before, eight deliveries complete a push: that of its QUERY, and
/// those of what is sent for it, in the order of sending.
pub fn pushes_complete()
    ensures { PushesComplete }
{
    knowledge_is_enough();
    sent_is_accepted();
    nobody_is_accused();
    keys_open_well();
    promises_are_equally_long();
    signed_by_rule();
    parties_run_alone();
    premises_can_be_met();
}
