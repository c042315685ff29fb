//! The orders for what a broadcaster sends.
ghost use Rattle.std.specs.Prelude.{◌≡◌, ◌+◌, ◌*◌, ◌≤◌, ◌++◌, filter, length};
ghost use Rattle.bar_core.specs.Code.Orders.{HasSameRoom};
ghost use Rattle.bar_rules.specs.Broadcaster.Sending.{served};
ghost use Rattle.bar_rules.specs.Broadcaster.Stream.{is_in_fanout, round_blocks};
ghost use Rattle.bar_rules.specs.Peer.Log.{Log, round_now};
ghost use Rattle.bar_caster.specs.Code.Fanout.{AreRanksOf};
ghost use Rattle.bar_caster.specs.Code.Memory.{Represents, member_of, stream_of};
ghost use Rattle.bar_caster.specs.Code.Orders.{orders_to};
ghost use Rattle.bar_caster.specs.Code.Ticking.{block_orders, update_now};
ghost use Rattle.bar_caster.specs.declared.item.Item.TheVariants as items;

use crate::fanout::Ranks;
use crate::item::Item;
use crate::memory::Memory;
use crate::order::Order;
use bar_bytes::Steps;
use bar_core::Orders;
use bar_window::UpdateId;
use std::sync::ledger::Ledger;

/// Sends an item to each peer that isn't evicted.
pub fn send_to_all(memory: &Memory, orders: &mut Orders<Order>, item: Item)
    ensures sent { (log : Log) → Represents log memory.now → length orders.old.list.items + memory.now.session.shape.peers ≤ orders.old.room
        → orders.new.list.items ≡ orders.old.list.items ++ orders_to item (served memory.now.session log) }
    ensures few { length orders.new.list.items ≤ length orders.old.list.items + memory.now.session.shape.peers }
    ensures room { HasSameRoom orders.old orders.new }
{
    for before in 0..memory.session.shape().peers {
        let peer = before + 1;
        if !memory.evictions.is_evicted(peer) {
            orders.push(Order { peer, item });
        }
    }
}

/// Sends the block of the update that `ranks` is for to the peers of its fan-out that aren't evicted.
fn send_block(memory: &Memory, ranks: &Ranks, orders: &mut Orders<Order>, index: u8)
    requires { length ranks.now ≡ memory.now.session.shape.peers }
    ensures sent { (log : Log) → Represents log memory.now → AreRanksOf (member_of memory.now) (update_now log index) ranks.now
        → length orders.old.list.items + memory.now.session.shape.peers ≤ orders.old.room
        → orders.new.list.items ≡ orders.old.list.items ++ orders_to (items.Block index)
        (filter (is_in_fanout (member_of memory.now) (update_now log index)) (served memory.now.session log)) }
    ensures few { length orders.new.list.items ≤ length orders.old.list.items + memory.now.session.shape.peers }
    ensures room { HasSameRoom orders.old orders.new }
{
    let item = Item::Block(index);
    for before in 0..memory.session.shape().peers {
        let peer = before + 1;
        if !memory.evictions.is_evicted(peer) && ranks.is_sent_to(memory.session.fanout(), peer) {
            orders.push(Order { peer, item });
        }
    }
}

/// Sends each block of this round to the peers of its fan-out that aren't evicted. It counts one step for each block and peer.
pub fn send_blocks<L: Ledger>(
    memory: &Memory,
    ranks: &mut Ranks,
    orders: &mut Orders<Order>,
    steps: &mut Steps<L>,
)
    requires { length ranks.old ≡ memory.now.session.shape.peers }
    ensures sent { (log : Log) → Represents log memory.now
        → length orders.old.list.items + memory.now.session.shape.per_round * memory.now.session.shape.peers ≤ orders.old.room
        → orders.new.list.items ≡ orders.old.list.items ++ block_orders (member_of memory.now) log 0
        (length (round_blocks memory.now.session (stream_of memory.now) (round_now log))) }
    ensures room { HasSameRoom orders.old orders.new }
    ensures ranks { length ranks.new ≡ length ranks.old }
    ensures cost { steps.new ≤ steps.old + memory.now.session.shape.per_round * memory.now.session.shape.peers }
{
    let round = memory.round();
    let shape = memory.session.shape();
    for index in 0..memory.stream.blocks_in(round) {
        let update = UpdateId { round, index };
        ranks.fill(&shape.id, &memory.secrets.secret, update, steps);
        send_block(memory, ranks, orders, index);
    }
}
