//! How a peer records a datagram that it admits.
ghost use Rattle.std.specs.Prelude.{◌≡◌, ◌∷◌};
ghost use Rattle.bar_wire.specs.Datagram.{kind_of};
ghost use Rattle.bar_wire.specs.Code.Views.{plain};
ghost use Rattle.bar_wire.specs.declared.kind.Kind.TheVariants.{Manifest, Block, Evict};
ghost use Rattle.bar_rules.specs.Peer.Log.{Log, Heard};
ghost use Rattle.bar_rules.specs.Peer.Knowledge.{Knowledge, with_heard};
ghost use Rattle.bar_rules.specs.Peer.Rules.{IsObedient};
ghost use Rattle.bar_laws.specs.Soundness.{IsSound};
ghost use Rattle.bar_exchange.specs.Code.Keeping.{IsAdmittedNow};
ghost use Rattle.bar_peer.specs.Code.Arrivals.{IsReadBy, datagram_by};
ghost use Rattle.bar_peer.specs.Code.Memory.{member_of, HasOtherLedger, IsMemoryOf, Represents, IsSameParty};
ghost use Rattle.bar_peer.specs.Code.Hearing.{RecallsHeard};

use crate::arrival::Arrival;
use crate::memory::Memory;
use bar_laws::knowing::knowledge_is_enough;
use bar_laws::memories::logs_are_sound;
use bar_laws::rooms::{datagrams_fit_their_rooms, exchanges_are_few};
use bar_window::{UpdateId, XKind};
use bar_wire::Body;

impl Memory {
    /// Keeps the digests of a manifest, and its datagram.
    fn hear_manifest(&mut self, arrival: &Arrival<'_>)
        requires view { IsReadBy self.old.who arrival.now }
        ensures learns { (k : Knowledge) → IsMemoryOf (member_of self.old.who) k self.old
            → IsAdmittedNow (member_of self.old.who) k (datagram_by self.old.who arrival.now) arrival.now.bytes.now
            → kind_of (plain arrival.now.view.body) ≡ Manifest
            → IsMemoryOf (member_of self.old.who)
            (with_heard (member_of self.old.who) (datagram_by self.old.who arrival.now) k) self.new }
        ensures party { IsSameParty self.old self.new }
    {
        let Body::Manifest { round, digests, .. } = arrival.view.body else {
            return;
        };
        if arrival.bytes.len() > self.manifests.size() {
            return;
        }
        if self.store.add_manifest(round, digests) {
            self.manifests.keep(round as usize, arrival.bytes);
        }
    }

    /// Holds the block of an update.
    fn hear_block(&mut self, arrival: &Arrival<'_>)
        requires view { IsReadBy self.old.who arrival.now }
        ensures learns { (k : Knowledge) → IsMemoryOf (member_of self.old.who) k self.old → IsSound (member_of self.old.who) k
            → IsAdmittedNow (member_of self.old.who) k (datagram_by self.old.who arrival.now) arrival.now.bytes.now
            → kind_of (plain arrival.now.view.body) ≡ Block
            → IsMemoryOf (member_of self.old.who)
            (with_heard (member_of self.old.who) (datagram_by self.old.who arrival.now) k) self.new }
        ensures party { IsSameParty self.old self.new }
    {
        let Body::Block {
            round,
            index,
            block,
        } = arrival.view.body
        else {
            return;
        };
        let now = self.round();
        if round <= now + 1 {
            self.store.add_block(UpdateId { round, index }, block, now);
        }
    }

    /// Marks the round of an EVICT and the parties that it names.
    fn hear_evict(&mut self, arrival: &Arrival<'_>)
        requires view { IsReadBy self.old.who arrival.now }
        ensures learns { (k : Knowledge) → IsMemoryOf (member_of self.old.who) k self.old
            → kind_of (plain arrival.now.view.body) ≡ Evict
            → IsMemoryOf (member_of self.old.who)
            (with_heard (member_of self.old.who) (datagram_by self.old.who arrival.now) k) self.new }
        ensures party { IsSameParty self.old self.new }
    {
        let Body::Evict { round, parties, .. } = arrival.view.body else {
            return;
        };
        self.evictions.add(round, parties);
    }

    /// Keeps a datagram of an exchange.
    fn hear_of_exchange(&mut self, arrival: &Arrival<'_>)
        requires view { IsReadBy self.old.who arrival.now }
        ensures learns { RecallsHeard self.old.who arrival.now.view arrival.now.bytes.now self.old.ledger self.new.ledger }
        ensures rest { HasOtherLedger self.old self.new }
    {
        let Some(place) = arrival.place else {
            return;
        };
        match place.x.kind {
            XKind::Balanced => {
                bar_balanced::keep(&mut self.ledger, &arrival.view, place, arrival.bytes)
            }
            XKind::Push => bar_push::keep(&mut self.ledger, &arrival.view, place, arrival.bytes),
        }
    }

    /// Records an admitted datagram.
    pub fn hear(&mut self, arrival: &Arrival<'_>)
        requires view { IsReadBy self.old.who arrival.now }
        ensures learns { (log : Log) → IsObedient (member_of self.old.who) (Heard (datagram_by self.old.who arrival.now) ∷ log)
            → Represents log self.old → Represents (Heard (datagram_by self.old.who arrival.now) ∷ log) self.new }
        ensures party { IsSameParty self.old self.new }
    {
        knowledge_is_enough();
        logs_are_sound();
        datagrams_fit_their_rooms();
        exchanges_are_few();
        match arrival.view.body {
            Body::Manifest { .. } => self.hear_manifest(arrival),
            Body::Block { .. } => self.hear_block(arrival),
            Body::Evict { .. } => self.hear_evict(arrival),
            Body::Key { .. } => {
                self.open(arrival);
                self.hear_of_exchange(arrival);
            }
            _ => self.hear_of_exchange(arrival),
        }
    }
}
