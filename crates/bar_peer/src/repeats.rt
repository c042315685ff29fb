//! Datagrams that were admitted before under the same name.
ghost use Rattle.std.specs.Prelude.{◌≡◌, option_map, option_copied, ℕ, List};
ghost use Rattle.std.specs.Bool.{then_some};
ghost use Rattle.bar_wire.specs.Datagram.{place_of};
ghost use Rattle.bar_wire.specs.Code.Views.{plain, IsView};
ghost use Rattle.bar_rules.specs.Values.{datagram_bytes};
ghost use Rattle.bar_rules.specs.Peer.Admission.{is_heard_again};
ghost use Rattle.bar_rules.specs.Peer.Knowledge.{Knowledge};
ghost use Rattle.bar_rules.specs.Peer.Replies.{heard_like, repeated};
ghost use Rattle.bar_balanced.specs.Code.Balanced.{AreSpelled};
ghost use Rattle.bar_peer.specs.Code.Arrivals.{IsReadBy, datagram_by};
ghost use Rattle.bar_peer.specs.Code.Memory.{member_of, IsMemoryOf};
ghost use Rattle.bar_peer.specs.Code.Repeats.{IsInTime};

use crate::arrival::Arrival;
use crate::memory::Memory;
use bar_wire::{Body, bytes_spell_one, kind_of};

impl Memory {
    /// The datagram of the same kind, exchange and side that was admitted before.
    fn heard_like(&self, arrival: &Arrival<'_>) -> Option<&[u8]>
        ensures { (k : Knowledge) → IsMemoryOf (member_of self.now.who) k self.now
            → IsInTime (member_of self.now.who) k (datagram_by self.now.who arrival.now).message
            → option_map (datagram_bytes self.now.who.session) (heard_like k (plain arrival.now.view.body)
            (place_of (datagram_by self.now.who arrival.now).message)) ≡ option_copied result }
    {
        let place = arrival.place?;
        self.ledger
            .heard_from(place.x, kind_of(&arrival.view.body), place.role)
    }

    /// Whether the kind is signed and a datagram of the same name was admitted before.
    pub fn is_heard_again(&self, arrival: &Arrival<'_>) -> bool
        ensures { (k : Knowledge) (bytes : List ℕ) → IsMemoryOf (member_of self.now.who) k self.now
            → IsView self.now.who.session.shape bytes arrival.now.view
            → IsInTime (member_of self.now.who) k (datagram_by self.now.who arrival.now).message
            → result ≡ is_heard_again k (datagram_by self.now.who arrival.now).message }
    {
        match arrival.view.body {
            Body::Manifest { round, .. } => self.manifests.get(round as usize).is_some(),
            Body::Evict { round, .. } => self.evictions.was_heard(round),
            _ => arrival.view.sig.is_some() && self.heard_like(arrival).is_some(),
        }
    }

    /// Whether a datagram repeats an admitted one of an exchange, byte for byte, and its sender isn't announced evicted.
    pub fn is_repeat(&self, arrival: &Arrival<'_>) -> bool
        requires view { IsReadBy self.now.who arrival.now }
        ensures { (k : Knowledge) → IsMemoryOf (member_of self.now.who) k self.now → AreSpelled (member_of self.now.who) k
            → IsInTime (member_of self.now.who) k (datagram_by self.now.who arrival.now).message
            → repeated (member_of self.now.who) k (datagram_by self.now.who arrival.now)
            ≡ then_some result (datagram_by self.now.who arrival.now) }
    {
        if self.evictions.is_named(arrival.view.from) {
            return false;
        }
        bytes_spell_one();
        match self.heard_like(arrival) {
            Some(heard) => heard == arrival.bytes,
            None => false,
        }
    }
}
