//! What a KEY shows of the briefcase that it opens.
ghost use Rattle.std.specs.Prelude.{◌≡◌, ◌≤◌, ℕ, length, true, option_map, Some, IfSome};
ghost use Rattle.std.specs.Option.{option_or};
ghost use Rattle.bar_window.specs.Limits.{most_items};
ghost use Rattle.bar_window.specs.declared.update.UpdateId.{UpdateId};
ghost use Rattle.bar_terms.specs.Table.{digests_of};
ghost use Rattle.bar_terms.specs.Terms.{can_promise};
ghost use Rattle.bar_wire.specs.Datagram.{Briefcase, Case, kind_of};
ghost use Rattle.bar_wire.specs.Grammar.{HasForm};
ghost use Rattle.bar_wire.specs.Code.Views.{datagram, plain, AreWindows};
ghost use Rattle.bar_wire.specs.declared.kind.Kind.TheVariants.{Key};
ghost use Rattle.bar_rules.specs.Values.{counts_ok};
ghost use Rattle.bar_rules.specs.Peer.Agreement.{IsRecent};
ghost use Rattle.bar_rules.specs.Peer.Knowledge.{Knowledge, with_heard};
ghost use Rattle.bar_laws.specs.Soundness.{IsSound};
ghost use Rattle.bar_store.specs.Code.Held.{block_in, HasSame};
ghost use Rattle.bar_store.specs.Code.Holds.{Holds};
ghost use Rattle.bar_balanced.specs.Code.Balanced.{AreSpelled};
ghost use Rattle.bar_exchange.specs.Code.Keeping.{IsAdmittedNow};
ghost use Rattle.bar_peer.specs.Code.Arrivals.{IsReadBy, datagram_by};
ghost use Rattle.bar_peer.specs.Code.Memory.{member_of, HasOtherStore, IsMemoryOf};
ghost use Rattle.bar_peer.specs.Code.Opening.{block_in_item, block_in_items, items_in, IsNear, AreGiven};

use crate::arrival::Arrival;
use crate::memory::Memory;
use bar_case::laws::good_openings_have_their_digests;
use bar_case::{Opening, unseal};
use bar_exchange::is_within;
use bar_store::Store;
use bar_terms::{Item, Promise, can_promise, junk_count, promise, update_count};
use bar_window::{BLOCK_SIZE, Exchange, MOST_ITEMS};
use bar_wire::{Body, Kind, Place, View, decode};

/// Holds the block of an item, if the item is an update that is alive, of the next round at most, and the block has its digest.
fn hold_item(store: &mut Store, now: u32, item: &Item, block: &[u8; BLOCK_SIZE])
    requires now { now ≡ store.old.round }
    ensures held { (u : UpdateId) → block_in store.new u ≡ option_or (block_in store.old u)
        (block_in_item (digests_of store.old.table.lists) store.old.life now item.now block.now u) }
    ensures same { HasSame store.old store.new }
{
    if let Item::Update(id) = item {
        if is_within(id.round, now, 1) {
            store.add_block(*id, block, now);
        }
    }
}

/// Holds the blocks of items, in order.
fn hold_all(store: &mut Store, now: u32, items: &[Item], blocks: &[[u8; BLOCK_SIZE]])
    requires now { now ≡ store.old.round }
    requires few { length items.now ≤ length blocks.now }
    ensures held { (u : UpdateId) → block_in store.new u ≡ option_or (block_in store.old u)
        (block_in_items (digests_of store.old.table.lists) store.old.life now items.now blocks.now u) }
    ensures same { HasSame store.old store.new }
{
    for (place, item) in items.iter().enumerate() {
        hold_item(store, now, item, &blocks[place]);
    }
}

impl Memory {
    /// The datagram of a kind that was admitted from a side of an exchange.
    fn heard_view(&self, kind: Kind, place: Place) -> Option<View<'_>>
        ensures told { (k : Knowledge) → IsMemoryOf (member_of self.now.who) k self.now → AreSpelled (member_of self.now.who) k
            → IsRecent (member_of self.now.who) k place.x.round
            → option_map (datagram self.now.who.session.shape) result ≡ k.heard kind place.x place.role }
        ensures windows { IfSome result (λ v. AreWindows self.now.who.session.shape v.body) }
        ensures form { IfSome result (λ v. HasForm self.now.who.session.shape (plain v.body)) }
    {
        let bytes = self.ledger.heard_from(place.x, kind, place.role)?;
        decode(bytes, &self.who.session.shape()).ok()
    }

    /// The promise of a briefcase that a key opens, or `None` unless every item in it is as promised. If it is `Some`, `out` contains the
    /// blocks of the promised updates.
    fn unseal(
        &self,
        x: Exchange,
        case: &View<'_>,
        key: &[u8; 32],
        out: &mut [[u8; BLOCK_SIZE]; MOST_ITEMS],
    ) -> Option<Promise>
        requires windows { AreWindows self.now.who.session.shape case.now.body }
        requires form { HasForm self.now.who.session.shape (plain case.now.body) }
        ensures given { (c : Briefcase) (now : ℕ) → plain case.now.body ≡ Case c → can_promise self.now.who.session.cap c.terms ≡ true
            → counts_ok self.now.who.session c ≡ true → IsNear (digests_of self.now.store.table.lists) now
            → AreGiven self.now.who.session now (digests_of self.now.store.table.lists) x key.now (Some c) (items_in result) out.new }
        ensures few { IfSome result (λ p. p.len ≤ most_items) }
    {
        let Body::Case {
            role,
            updates,
            junk,
            terms,
            cipher,
            ..
        } = case.body
        else {
            return None;
        };
        let session = &self.who.session;
        let cap = session.cap();
        if !can_promise(&terms, cap) {
            return None;
        }
        if update_count(&terms, role, cap) != updates || junk_count(&terms, role) != junk {
            return None;
        }
        good_openings_have_their_digests();
        let id = session.shape().id;
        let opening = unseal(
            &id,
            x,
            &terms,
            role,
            cap,
            cipher,
            key,
            self.store.table(),
            out,
        );
        match opening {
            Opening::Good(_) => Some(promise(&terms, role, cap)),
            _ => None,
        }
    }

    /// Opens the briefcase of a KEY. If every item in it is as promised, holds the blocks of its updates that are alive and not held yet.
    pub fn open(&mut self, arrival: &Arrival<'_>)
        requires view { IsReadBy self.old.who arrival.now }
        ensures learns { (k : Knowledge) → IsMemoryOf (member_of self.old.who) k self.old → IsSound (member_of self.old.who) k
            → IsAdmittedNow (member_of self.old.who) k (datagram_by self.old.who arrival.now) arrival.now.bytes.now
            → kind_of (plain arrival.now.view.body) ≡ Key
            → Holds (member_of self.old.who)
            (with_heard (member_of self.old.who) (datagram_by self.old.who arrival.now) k) self.new.store }
        ensures rest { HasOtherStore self.old self.new }
    {
        let Body::Key { key, .. } = arrival.view.body else {
            return;
        };
        let Some(place) = arrival.place else {
            return;
        };
        let Some(case) = self.heard_view(Kind::Case, place) else {
            return;
        };
        let mut blocks = [[0; BLOCK_SIZE]; MOST_ITEMS];
        let Some(promise) = self.unseal(place.x, &case, key, &mut blocks) else {
            return;
        };
        let now = self.round();
        let items = &promise.items[..usize::from(promise.len)];
        hold_all(&mut self.store, now, items, &blocks);
    }
}
