//! The replies of a peer to a datagram.
ghost use Rattle.std.specs.Prelude.{◌≡◌, true};
ghost use Rattle.bar_rules.specs.Peer.Knowledge.{Knowledge};
ghost use Rattle.bar_rules.specs.Peer.Replies.{reply_orders};
ghost use Rattle.bar_exchange.specs.Code.Says.{orders_of_reply, AreFitting};
ghost use Rattle.bar_peer.specs.Code.Arrivals.{datagram_by};
ghost use Rattle.bar_peer.specs.Code.Memory.{member_of, IsMemoryOf};
ghost use Rattle.bar_peer.specs.Code.Repeats.{IsInTime};

use crate::arrival::Arrival;
use crate::memory::Memory;
use bar_exchange::Says;
use bar_window::XKind;

/// The replies to a datagram that is admitted now or is a repeat.
pub fn says_to(memory: &Memory, arrival: &Arrival<'_>, is_new: bool) -> Says
    ensures fitting { AreFitting result }
    ensures orders { (k : Knowledge) → IsMemoryOf (member_of memory.now.who) k memory.now
        → (is_new ≡ true → IsInTime (member_of memory.now.who) k (datagram_by memory.now.who arrival.now).message)
        → orders_of_reply result ≡ reply_orders (member_of memory.now.who) k is_new (datagram_by memory.now.who arrival.now) }
{
    let Some(place) = arrival.place else {
        return Says::Nothing;
    };
    let round = memory.round();
    match place.x.kind {
        XKind::Balanced => bar_balanced::replies(
            &memory.who.session,
            &memory.ledger,
            &arrival.view,
            place,
            is_new,
        ),
        XKind::Push => {
            bar_push::replies(&memory.who.session, round, &arrival.view, place, is_new)
        }
    }
}
