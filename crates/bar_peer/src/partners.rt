//! The requests of a peer at the first slot of a round.
ghost use Rattle.std.specs.Prelude.{◌≡◌, ◌+◌, ◌≤◌, length};
ghost use Rattle.bar_session.specs.Time.{round_after};
ghost use Rattle.bar_rules.specs.Peer.Knowledge.{Knowledge};
ghost use Rattle.bar_peer.specs.Code.Ticking.{is_unasked, AsksPartner, AsksPartners};
ghost use Rattle.bar_core.specs.Code.Orders.{HasSameRoom};
ghost use Rattle.bar_peer.specs.Code.Memory.{member_of, IsMemoryOf, IsSameParty};

use crate::memory::Memory;
use crate::order::Order;
use crate::saying::request;
use bar_core::Orders;
use bar_seeds::partner;
use bar_window::{Role, XKind};
use bar_wire::exchange_by;

impl Memory {
    /// Whether a party isn't asked for exchanges: it is announced evicted, or owes this peer a key.
    fn is_unasked(&self, party: u16) -> bool
        ensures { (k : Knowledge) → IsMemoryOf (member_of self.now.who) k self.now → result ≡ is_unasked (member_of self.now.who) k party }
    {
        if self.evictions.is_named(party) {
            return true;
        }
        self.ledger.owes(party, self.round())
    }
}

/// Asks this round's partner for an exchange of a kind, unless it is announced evicted or owes a key. The round must be one of the session.
fn ask_partner(memory: &mut Memory, orders: &mut Orders<Order>, kind: XKind)
    requires first { 1 ≤ round_after memory.old.ticks }
    requires last { round_after memory.old.ticks ≤ memory.old.who.session.shape.rounds }
    ensures stands { AsksPartner memory.old.who (round_after memory.old.ticks) kind memory.old orders.old memory.new orders.new }
    ensures length { length orders.new.list.items ≤ length orders.old.list.items + 1 }
    ensures room { HasSameRoom orders.old orders.new }
    ensures party { IsSameParty memory.old memory.new }
{
    let shape = memory.who.session.shape();
    let me = memory.who.secrets.party;
    let round = memory.round();
    let seed = memory.who.chain.seed(round);
    let to = partner(&shape.id, &seed, kind, me, shape.peers);
    if memory.is_unasked(to) {
        return;
    }
    let x = exchange_by(round, kind, Role::Initiator, me, to);
    if memory.ask(x) {
        orders.push(Order::Say(request(x)));
    }
}

/// Asks this round's partners for a balanced exchange and, if there are young updates to offer, for a push. The round must be one of the
/// session.
pub fn ask_partners(memory: &mut Memory, orders: &mut Orders<Order>)
    requires first { 1 ≤ round_after memory.old.ticks }
    requires last { round_after memory.old.ticks ≤ memory.old.who.session.shape.rounds }
    ensures stands { AsksPartners memory.old.who (round_after memory.old.ticks) memory.old orders.old memory.new orders.new }
    ensures length { length orders.new.list.items ≤ length orders.old.list.items + 2 }
    ensures room { HasSameRoom orders.old orders.new }
    ensures party { IsSameParty memory.old memory.new }
{
    let round = memory.round();
    let young = memory.store.young(round).first(memory.who.session.cap());
    ask_partner(memory, orders, XKind::Balanced);
    if young.size() > 0 {
        ask_partner(memory, orders, XKind::Push);
    }
}
