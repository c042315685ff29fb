//! The premises of the laws can be met.

ghost use Rattle.bar_progress.specs.Witness.{PushBegun, TradeBegun};

use bar_laws::broadcasting::blocks_reach_their_fanout;
use bar_laws::parties::sent_is_accepted;
use bar_laws::premises::premises_can_be_met;

/// There is a world in which two trusted peers meet all premises of the laws of trades, so none of these laws holds vacuously.
pub fn trades_can_begin()
    ensures { TradeBegun }
{
    premises_can_be_met();
    sent_is_accepted();
    blocks_reach_their_fanout();
}

/// The same for pushes.
pub fn pushes_can_begin()
    ensures { PushBegun }
{
    premises_can_be_met();
    sent_is_accepted();
    blocks_reach_their_fanout();
}
