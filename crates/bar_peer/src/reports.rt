//! The reports of evidence.
ghost use Rattle.std.specs.Prelude.{◌≡◌, ◌≤◌, ℕ, List, Some, length};
ghost use Rattle.bar_wire.specs.Limits.{largest_datagram};
ghost use Rattle.bar_rules.specs.Peer.Knowledge.{Knowledge};
ghost use Rattle.bar_laws.specs.Sizes.{FitsItsRoom};
ghost use Rattle.bar_rules.specs.Code.Giving.{IsGiven};
ghost use Rattle.bar_peer.specs.Code.Memory.{member_of, IsMemoryOf};
ghost use Rattle.bar_peer.specs.Code.Sending.{report_of};
ghost use Rattle.bar_peer.specs.Code.Ticking.{is_reported, Reports};
ghost use Rattle.bar_core.specs.Code.Orders.{HasSameRoom};

use crate::memory::Memory;
use crate::order::Order;
use bar_core::Orders;
use bar_wire::{BROADCASTER, Body, HEADER_LEN, encode, split_evidence};

impl Memory {
    /// Whether the evidence against a party is to be reported: some is kept, and the party isn't announced evicted.
    fn is_reported(&self, party: u16) -> bool
        ensures { (k : Knowledge) → IsMemoryOf (member_of self.now.who) k self.now → result ≡ is_reported k party }
    {
        self.evidence.get(usize::from(party)).is_some() && !self.evictions.is_named(party)
    }

    /// Writes the report of the evidence against a party to the start of a buffer, and returns its length.
    pub fn write_report(&self, party: u16, buf: &mut [u8]) -> Option<usize>
        requires room { largest_datagram ≤ length buf.old }
        ensures { (k : Knowledge) (evidence : List (List ℕ)) → IsMemoryOf (member_of self.now.who) k self.now
            → k.evidence party ≡ Some evidence → FitsItsRoom (member_of self.now.who) evidence
            → IsGiven self.now.who.session (report_of (member_of self.now.who) evidence) result buf.new }
    {
        let bytes = self.evidence.get(usize::from(party))?;
        if split_evidence(bytes).is_err() || HEADER_LEN + bytes.len() > buf.len() {
            return None;
        }
        let (count, datagrams) = bytes.split_first()?;
        let body = Body::Evidence {
            count: *count,
            datagrams,
        };
        let shape = self.who.session.shape();
        Some(encode(self.who.secrets.party, BROADCASTER, &body, &shape, buf))
    }
}

/// Reports the evidence against each peer that isn't announced evicted, in order of peer number.
pub fn report_all(memory: &Memory, orders: &mut Orders<Order>)
    ensures stands { Reports memory.now orders.old orders.new }
    ensures room { HasSameRoom orders.old orders.new }
{
    for party in 1..=memory.who.session.shape().peers {
        if memory.is_reported(party) {
            orders.push(Order::Report(party));
        }
    }
}
