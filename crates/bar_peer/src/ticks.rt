//! What a peer sends at a tick, and how it takes one.
ghost use Rattle.std.specs.Prelude.{◌≡◌, ◌==◌, ◌+◌, ◌<◌, ◌≤◌, ◌∷◌, [], length};
ghost use Rattle.bar_session.specs.Time.{last_tick, slot_after};
ghost use Rattle.bar_rules.specs.Peer.Agreement.{IsRecent};
ghost use Rattle.bar_rules.specs.Peer.Knowledge.{Knowledge, known};
ghost use Rattle.bar_rules.specs.Peer.Log.{Log, Ticked};
ghost use Rattle.bar_rules.specs.Peer.Run.{Out, perform, perform_all};
ghost use Rattle.bar_rules.specs.Runs.{begun};
ghost use Rattle.bar_exchange.specs.Code.Says.{order_again, orders_at_tick};
ghost use Rattle.bar_peer.specs.Code.Memory.{member_of, IsMemoryOf, Represents, IsSameParty};
ghost use Rattle.bar_peer.specs.Code.Ticking.{orders_of_open, orders_of_opens, most_orders, is_first_slot, Acts};
ghost use Rattle.bar_peer.specs.Code.Sending.{IsTimely, HasOutcome};
ghost use Rattle.bar_core.specs.Code.Orders.{HasSameRoom};

use crate::memory::Memory;
use crate::order::Order;
use crate::partners::ask_partners;
use crate::reports::report_all;
use bar_core::Orders;
use bar_exchange::{Say, Says, again};
use bar_laws::knowing::knowledge_is_enough;
use bar_laws::memories::logs_are_sound;
use bar_roster::{SLOTS_A_ROUND, round_after, slot_after};
use bar_window::Exchange;

impl Memory {
    /// Takes a tick: the next slot, or the first slot of the next round. Then all that can't be asked about any more is dropped.
    pub fn tick(&mut self)
        requires { self.old.ticks < last_tick self.old.who.session }
        ensures learns { (log : Log) → Represents log self.old → Represents (Ticked ∷ log) self.new }
        ensures ticks { self.new.ticks ≡ self.old.ticks + 1 }
        ensures who { self.new.who ≡ self.old.who }
    {
        knowledge_is_enough();
        self.ticks += 1;
        let round = round_after(self.ticks);
        self.store.forget(round);
        self.ledger.forget(round);
    }

    /// Whether this is the first slot of a round of the session.
    fn is_first_slot(&self) -> bool
        ensures { result ≡ is_first_slot self.now.who.session self.now.ticks }
    {
        let round = self.round();
        slot_after(self.ticks) == 0 && 1 <= round && round <= self.who.session.shape().rounds
    }

    /// Whether this is the last slot of a round.
    fn is_last_slot(&self) -> bool
        ensures { result ≡ (slot_after self.now.ticks == 7) }
    {
        slot_after(self.ticks) == SLOTS_A_ROUND - 1
    }

    /// What is sent again in an open exchange: nothing if its partner is announced evicted.
    fn again(&self, x: Exchange) -> Says
        ensures { (k : Knowledge) → IsMemoryOf (member_of self.now.who) k self.now
            → orders_at_tick result ≡ orders_of_open (member_of self.now.who) k x }
    {
        if self.evictions.is_named(self.partner_in(x)) {
            return Says::Nothing;
        }
        again(&self.ledger, x)
    }
}

/// Sends a message again: one that was sent before, or one that isn't signed, if there is one.
fn repeat(memory: &Memory, orders: &mut Orders<Order>, say: Say)
    ensures stands { (out : Out) → HasOutcome out memory.now orders.old
        → IsTimely (member_of memory.now.who) (known (member_of memory.now.who) out.state) say
        → length orders.old.list.items + 1 ≤ orders.old.room
        → HasOutcome (perform (member_of memory.now.who) out (order_again say.kind say.x)) memory.now orders.new }
    ensures length { length orders.new.list.items ≤ length orders.old.list.items + 1 }
    ensures room { HasSameRoom orders.old orders.new }
{
    if memory.may_repeat(say) {
        orders.push(Order::Say(say));
    }
}

/// Sends again what an open exchange is waiting for, unless its partner is announced evicted.
fn repeat_once(memory: &Memory, orders: &mut Orders<Order>, x: Exchange)
    ensures stands { (out : Out) → HasOutcome out memory.now orders.old
        → IsRecent (member_of memory.now.who) (known (member_of memory.now.who) out.state) x.round
        → length orders.old.list.items + 2 ≤ orders.old.room
        → HasOutcome (perform_all (member_of memory.now.who) out
        (orders_of_open (member_of memory.now.who) (known (member_of memory.now.who) out.state) x)) memory.now orders.new }
    ensures length { length orders.new.list.items ≤ length orders.old.list.items + 2 }
    ensures room { HasSameRoom orders.old orders.new }
{
    match memory.again(x) {
        Says::Nothing => {}
        Says::One(say) => repeat(memory, orders, say),
        Says::Two(first, second) => {
            repeat(memory, orders, first);
            repeat(memory, orders, second);
        }
    }
}

/// Sends again what the open exchanges are waiting for, in order.
fn repeat_all(memory: &Memory, orders: &mut Orders<Order>)
    ensures stands { (log : Log) → Represents log memory.now → orders.old.list.items ≡ []
        → most_orders memory.now.who.session ≤ orders.old.room
        → HasOutcome (perform_all (member_of memory.now.who) (begun log)
        (orders_of_opens (member_of memory.now.who) (known (member_of memory.now.who) log))) memory.now orders.new }
    ensures length { (log : Log) → Represents log memory.now → orders.old.list.items ≡ []
        → length orders.new.list.items + 2 + memory.now.who.session.shape.peers ≤ most_orders memory.now.who.session }
    ensures room { HasSameRoom orders.old orders.new }
{
    let mut after = None;
    for _ in 0..memory.ledger.len() {
        let Some(x) = memory.ledger.next_open(after) else {
            return;
        };
        repeat_once(memory, orders, x);
        after = Some(x);
    }
}

/// Sends all that a tick asks for. First it sends again what the open exchanges are waiting for. At the first slot of a round of the
/// session it sends requests. At the last slot of a round it reports evidence.
pub fn act(memory: &mut Memory, orders: &mut Orders<Order>)
    ensures stands { Acts memory.old orders.old memory.new orders.new }
    ensures room { HasSameRoom orders.old orders.new }
    ensures party { IsSameParty memory.old memory.new }
{
    logs_are_sound();
    repeat_all(memory, orders);
    if memory.is_first_slot() {
        ask_partners(memory, orders);
    }
    if memory.is_last_slot() {
        report_all(memory, orders);
    }
}
