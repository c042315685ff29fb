//! How a peer carries out replies, and queues their datagrams as orders.
ghost use Rattle.std.specs.Prelude.{◌≡◌, ◌+◌, ◌≤◌, ◌&&◌, [], true, length};
ghost use Rattle.std.specs.List.{AllByRecursion};
ghost use Rattle.bar_rules.specs.Peer.Knowledge.{known};
ghost use Rattle.bar_rules.specs.Peer.Rules.{IsObedient};
ghost use Rattle.bar_rules.specs.Peer.Run.{Out, perform, perform_all};
ghost use Rattle.bar_exchange.specs.Code.Says.{order_by, orders_of_reply, says_in};
ghost use Rattle.bar_peer.specs.Code.Memory.{member_of, IsSameParty};
ghost use Rattle.bar_peer.specs.Code.Sending.{MaySayNow, HasOutcome};
ghost use Rattle.bar_core.specs.Code.Orders.{HasSameRoom};

use crate::memory::Memory;
use crate::order::Order;
use bar_core::Orders;
use bar_exchange::{Say, Says};

fn both(one: bool, two: bool) -> bool
    ensures { result ≡ (one && two) }
{
    one && two
}

/// Carries out a reply. Returns true, with the memory unchanged, if its datagram was sent before or isn't signed.
fn reply_once(memory: &mut Memory, orders: &mut Orders<Order>, say: Say) -> bool
    ensures stands { (out : Out)
        → IsObedient (member_of memory.old.who) (perform (member_of memory.old.who) out (order_by say.kind say.x)).state
        → HasOutcome out memory.old orders.old → MaySayNow (member_of memory.old.who) (known (member_of memory.old.who) out.state) say
        → length orders.old.list.items + 1 ≤ orders.old.room
        → HasOutcome (perform (member_of memory.old.who) out (order_by say.kind say.x)) memory.new orders.new }
    ensures same { result ≡ true → memory.new ≡ memory.old }
    ensures length { length orders.new.list.items ≤ length orders.old.list.items + 1 }
    ensures room { HasSameRoom orders.old orders.new }
    ensures party { IsSameParty memory.old memory.new }
{
    if memory.may_repeat(say) {
        orders.push(Order::Say(say));
        return true;
    }
    if memory.say(say) {
        orders.push(Order::Say(say));
    }
    false
}

/// Carries out replies, in order. Returns true only if the memory is unchanged.
pub fn reply(memory: &mut Memory, orders: &mut Orders<Order>, says: Says) -> bool
    ensures stands { (out : Out)
        → IsObedient (member_of memory.old.who) (perform_all (member_of memory.old.who) out (orders_of_reply says)).state
        → HasOutcome out memory.old orders.old
        → AllByRecursion (MaySayNow (member_of memory.old.who) (known (member_of memory.old.who) out.state)) (says_in says)
        → length orders.old.list.items + 2 ≤ orders.old.room
        → HasOutcome (perform_all (member_of memory.old.who) out (orders_of_reply says)) memory.new orders.new }
    ensures nothing { orders_of_reply says ≡ [] → memory.new ≡ memory.old }
    ensures same { result ≡ true → memory.new ≡ memory.old }
    ensures length { length orders.new.list.items ≤ length orders.old.list.items + 2 }
    ensures room { HasSameRoom orders.old orders.new }
    ensures party { IsSameParty memory.old memory.new }
{
    match says {
        Says::Nothing => true,
        Says::One(say) => reply_once(memory, orders, say),
        Says::Two(first, second) => {
            let one = reply_once(memory, orders, first);
            let two = reply_once(memory, orders, second);
            both(one, two)
        }
    }
}
