//! Exchanges continue, whatever moves occur between their deliveries.

ghost use Rattle.bar_progress.specs.Between.{PacketsAreGiven, TradesGoOn};

use bar_laws::growing::logs_grow;
use bar_laws::knowing::knowledge_is_enough;
use bar_laws::memories::logs_are_sound;
use bar_laws::obedience::signed_by_rule;
use bar_laws::own_runs::parties_run_alone;
use bar_laws::parties::{
    keys_open_well, nobody_is_accused, nobody_is_announced, sent_is_accepted,
    what_was_heard_was_said,
};
use bar_laws::premises::premises_can_be_met;
use bar_terms::laws::promises_are_equally_long;

/// Between two trusted peers of a world that can trade, a balanced exchange continues whatever moves occur between its deliveries: ticks,
/// repeats, hostile datagrams, and other exchanges of the two. Each next datagram has been sent. Once its receiver takes it in time, by a
/// delivery or from any party that has its bytes, the one after it has been sent too. After the last one both peers have what was agreed,
/// for good.
pub fn trades_go_on()
    ensures goes { TradesGoOn }
    // a delivery gives the receiver the bytes of the packet
    ensures given { PacketsAreGiven }
{
    logs_grow();
    knowledge_is_enough();
    logs_are_sound();
    signed_by_rule();
    parties_run_alone();
    keys_open_well();
    nobody_is_accused();
    nobody_is_announced();
    sent_is_accepted();
    what_was_heard_was_said();
    premises_can_be_met();
    promises_are_equally_long();
}
