//! The datagrams that a broadcaster gives out.
ghost use Rattle.std.specs.Prelude.{◌≡◌, ◌<◌, ◌≤◌, ℕ, List, [], Some, MatchOption, length};
ghost use Rattle.bar_core.specs.Code.Orders.{left_in};
ghost use Rattle.bar_wire.specs.Datagram.{Datagram};
ghost use Rattle.bar_wire.specs.Limits.{largest_datagram};
ghost use Rattle.bar_rules.specs.Code.Giving.{IsGiven, GivesNext};
ghost use Rattle.bar_rules.specs.Peer.Log.{Log};
ghost use Rattle.bar_rules.specs.Values.{datagram_bytes};
ghost use Rattle.bar_caster.specs.Code.Memory.{Represents, member_of, stream_of};
ghost use Rattle.bar_caster.specs.Code.Orders.{datagram_now};
ghost use Rattle.bar_caster.specs.Code.StandsFor.{Inputs, StandsFor, AreLeft};
ghost use Rattle.bar_caster.specs.declared.item.Item.TheVariants.{Block};

use crate::caster::Caster;
use crate::item::Item;
use crate::memory::Memory;
use crate::order::Order;
use bar_bytes::put;
use bar_laws::broadcasting::signs_once_a_round;
use bar_seal::Scheme;
use bar_window::BLOCK_SIZE;
use bar_wire::{BROADCASTER, Body, encode};

impl Memory {
    /// Writes the BLOCK of this round with this index, for a peer, to the start of a buffer, and returns the length of the datagram.
    fn write_block(&self, peer: u16, index: u8, buf: &mut [u8]) -> usize
        requires room { largest_datagram ≤ length buf.old }
        ensures { (log : Log) (d : Datagram) → Represents log self.now
            → datagram_now (member_of self.now) (stream_of self.now) log peer (Block index) ≡ Some d
            → IsGiven self.now.session d (Some result) buf.new }
    {
        let round = self.round();
        let mut block = [0; BLOCK_SIZE];
        self.stream.write_block(round, index, &mut block);
        let body = Body::Block {
            round,
            index,
            block: &block,
        };
        encode(BROADCASTER, peer, &body, &self.session.shape(), buf)
    }

    /// Writes the datagram of an order to the start of a buffer, and returns its length, or `None` if there is none.
    fn write(&self, order: Order, buf: &mut [u8]) -> Option<usize>
        requires room { largest_datagram ≤ length buf.old }
        ensures { (log : Log) (d : Datagram) → Represents log self.now
            → datagram_now (member_of self.now) (stream_of self.now) log order.peer order.item ≡ Some d
            → length (datagram_bytes self.now.session d) ≤ largest_datagram → IsGiven self.now.session d result buf.new }
    {
        let round = self.round() as usize;
        let bytes = match order.item {
            Item::Block(index) => return Some(self.write_block(order.peer, index, buf)),
            Item::Manifest => self.manifests.get(round)?,
            Item::ManifestBefore => self.manifests.get(round.saturating_sub(1))?,
            Item::Evictions => self.notice.kept()?,
        };
        if bytes.len() > buf.len() {
            return None;
        }
        Some(put(buf, 0, bytes))
    }
}

impl<S: Scheme> Caster<S> {
    /// Writes the next datagram to the start of a buffer, and returns its receiver and its length, or `None` if none is left.
    pub fn next_out(&mut self, buf: &mut [u8]) -> Option<(u16, usize)>
        requires room { largest_datagram ≤ length buf.old }
        ensures gives { (inputs : Inputs) (sends : List (ℕ × Datagram)) → StandsFor self.old.memory inputs
            → AreLeft self.old.memory self.old.orders inputs sends
            → GivesNext self.old.memory.session sends result buf.new (AreLeft self.new.memory self.new.orders inputs) }
        ensures ends { MatchOption result (left_in self.new.orders ≡ [])
            (λ given. length (left_in self.new.orders) < length (left_in self.old.orders)) }
        ensures memory { self.new.memory ≡ self.old.memory }
        ensures scheme { self.new.scheme ≡ self.old.scheme }
    {
        signs_once_a_round();
        let order = self.orders.next()?;
        let Some(len) = self.memory.write(order, buf) else {
            self.orders.clear();
            return None;
        };
        Some((order.peer, len))
    }
}
