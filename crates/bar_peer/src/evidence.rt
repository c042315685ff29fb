//! The evidence that a datagram completes.
ghost use Rattle.std.specs.Prelude.{◌≡◌, ◌≤◌, None, Some, option_map, true};
ghost use Rattle.bar_wire.specs.Evidence.{datagrams_of};
ghost use Rattle.bar_wire.specs.Code.Sides.{place_in};
ghost use Rattle.bar_wire.specs.declared.kind.Kind.TheVariants as kinds;
ghost use Rattle.bar_rules.specs.Peer.Evidence.{new_evidence, pair_with, pairs_elsewhere, pairs_in, pairs_of};
ghost use Rattle.bar_rules.specs.Peer.Knowledge.{Knowledge, table_of};
ghost use Rattle.bar_peer.specs.Code.Checking.{ChecksSeed, shown_by};
ghost use Rattle.bar_peer.specs.Code.Searching.{GoesBy, MaySearch, pair_behind, searched, searcher};

use crate::guard::Guard;
use crate::search::Search;
use bar_bytes::Steps;
use bar_exchange::naming_elsewhere;
use bar_judge::found;
use bar_judge::laws::verdicts_are_what_is_found;
use bar_laws::evidence::others_are_tried_by_leaves;
use bar_ledger::{names, opening_kind};
use bar_seal::Verifier;
use bar_wire::{EvidenceView, Kind, Place, decode, is_peer_kind, the_datagram_is_spelled};
use std::sync::ledger::Ledger as StepLedger;

impl<'a> Search<'a> {
    /// The admitted datagram of kind `kind` at `place`, if it and the searched one prove a fault of their sender.
    fn pair_with<V: Verifier, L: StepLedger>(
        &self,
        kind: Kind,
        place: Place,
        guard: &mut Guard<V>,
        steps: &mut Steps<L>,
    ) -> Option<&'a [u8]>
        requires place { self.now.arrival.now.place ≡ Some place }
        requires search { MaySearch self.now guard.old }
        ensures exact { (k : Knowledge) → GoesBy k self.now → pair_behind self.now result
            ≡ pair_with self.now.who.now.session (table_of k) (searched self.now) (k.heard kind place.x place.role) }
        ensures cost { steps.new ≤ steps.old }
        ensures same { guard.new ≡ guard.old }
    {
        verdicts_are_what_is_found();
        the_datagram_is_spelled();
        let session = &self.who.session;
        let heard = self.ledger.heard_from(place.x, kind, place.role)?;
        let earlier = decode(heard, &session.shape()).ok()?;
        if !is_peer_kind(&earlier.body) {
            return None;
        }
        found(
            session,
            guard.checker.verifier(),
            self.table,
            &earlier,
            Some(&self.arrival.view),
            &mut guard.points,
            steps,
        )?;
        Some(heard)
    }

    /// Whether the searched datagram is the KEY that was admitted at its place, byte for byte, and its signature names another leaf than
    /// that of the CASE admitted there. If so, the CASE isn't opened again: any evidence that this showed is kept already.
    fn is_key_again<V: Verifier>(&self, place: Place, guard: &Guard<V>) -> bool
        requires place { self.now.arrival.now.place ≡ Some place }
        requires search { MaySearch self.now guard.now }
        ensures { result ≡ true → (k : Knowledge) → GoesBy k self.now
            → pair_with self.now.who.now.session (table_of k) (searched self.now) (k.heard kinds.Case place.x place.role) ≡ None }
    {
        verdicts_are_what_is_found();
        the_datagram_is_spelled();
        let Some(key) = self.ledger.heard_from(place.x, Kind::Key, place.role) else {
            return false;
        };
        if key != self.arrival.bytes {
            return false;
        }
        let Some(case) = self.ledger.heard_from(place.x, Kind::Case, place.role) else {
            return false;
        };
        let Some(sig) = self.arrival.view.sig else {
            return false;
        };
        let verifier = guard.checker.verifier();
        !names(verifier, Some(case), verifier.leaf_in(sig))
    }

    /// The admitted CASE at `place`, if it and the searched datagram prove a fault of their sender.
    fn case_here<V: Verifier, L: StepLedger>(
        &self,
        place: Place,
        guard: &mut Guard<V>,
        steps: &mut Steps<L>,
    ) -> Option<&'a [u8]>
        requires place { self.now.arrival.now.place ≡ Some place }
        requires search { MaySearch self.now guard.old }
        ensures exact { (k : Knowledge) → GoesBy k self.now → pair_behind self.now result
            ≡ pair_with self.now.who.now.session (table_of k) (searched self.now) (k.heard kinds.Case place.x place.role) }
        ensures cost { steps.new ≤ steps.old }
        ensures same { guard.new ≡ guard.old }
    {
        if self.is_key_again(place, guard) {
            return None;
        }
        self.pair_with(Kind::Case, place, guard, steps)
    }

    /// The first admitted datagram at `place` that proves a fault together with the searched one.
    fn earlier_here<V: Verifier, L: StepLedger>(
        &self,
        place: Place,
        guard: &mut Guard<V>,
        steps: &mut Steps<L>,
    ) -> Option<&'a [u8]>
        requires place { self.now.arrival.now.place ≡ Some place }
        requires search { MaySearch self.now guard.old }
        ensures exact { (k : Knowledge) → GoesBy k self.now → pair_behind self.now result
            ≡ pairs_in self.now.who.now.session k (searched self.now) place.x place.role }
        ensures cost { steps.new ≤ steps.old }
        ensures same { guard.new ≡ guard.old }
    {
        let opening = opening_kind(place.x.kind, place.role);
        if let Some(heard) = self.pair_with(opening, place, guard, steps) {
            return Some(heard);
        }
        if let Some(heard) = self.case_here(place, guard, steps) {
            return Some(heard);
        }
        self.pair_with(Kind::Key, place, guard, steps)
    }

    /// The first admitted datagram of another exchange with the sender whose signature names the same leaf as the searched one's.
    fn earlier_elsewhere<V: Verifier>(&self, place: Place, guard: &Guard<V>) -> Option<&'a [u8]>
        requires place { self.now.arrival.now.place ≡ Some place }
        requires search { MaySearch self.now guard.now }
        ensures { (k : Knowledge) → GoesBy k self.now → pair_behind self.now result
            ≡ pairs_elsewhere (searcher self.now) k (searched self.now) (Some (place_in place)) }
    {
        others_are_tried_by_leaves();
        let verifier = guard.checker.verifier();
        let view = &self.arrival.view;
        let sig = view.sig?;
        let leaf = verifier.leaf_in(sig);
        naming_elsewhere(verifier, self.ledger, place.x, view.from, leaf)
    }

    /// The first admitted datagram that proves a fault together with the searched one: of the same exchange, else of another one.
    fn earlier<V: Verifier, L: StepLedger>(
        &self,
        place: Place,
        guard: &mut Guard<V>,
        steps: &mut Steps<L>,
    ) -> Option<&'a [u8]>
        requires place { self.now.arrival.now.place ≡ Some place }
        requires search { MaySearch self.now guard.old }
        ensures exact { (k : Knowledge) → GoesBy k self.now → pair_behind self.now result
            ≡ pairs_of (searcher self.now) k (searched self.now) (Some (place_in place)) }
        ensures cost { steps.new ≤ steps.old }
        ensures same { guard.new ≡ guard.old }
    {
        match self.earlier_here(place, guard, steps) {
            Some(heard) => Some(heard),
            None => self.earlier_elsewhere(place, guard),
        }
    }

    /// The evidence that a datagram with an accepted signature completes: the datagram alone, or the first admitted datagram of its sender
    /// that proves a fault with it, then itself. Datagrams of the same exchange are tried before others. It counts the steps along the
    /// seeds.
    pub fn find<V: Verifier, L: StepLedger>(
        &self,
        guard: &mut Guard<V>,
        steps: &mut Steps<L>,
    ) -> Option<EvidenceView<'a>>
        requires search { MaySearch self.now guard.old }
        ensures exact { (k : Knowledge) → GoesBy k self.now
            → option_map datagrams_of result ≡ new_evidence (searcher self.now) k (searched self.now) }
        ensures checks { ChecksSeed self.now.who.now.session (shown_by self.now.who.now self.now.arrival.now)
            guard.old guard.new steps.old steps.new }
    {
        verdicts_are_what_is_found();
        the_datagram_is_spelled();
        let arrival = self.arrival;
        let alone = found(
            &self.who.session,
            guard.checker.verifier(),
            self.table,
            &arrival.view,
            None,
            &mut guard.points,
            steps,
        );
        if alone.is_some() {
            return Some(EvidenceView {
                one: arrival.bytes,
                two: None,
            });
        }
        let place = arrival.place?;
        let heard = self.earlier(place, guard, steps)?;
        Some(EvidenceView {
            one: heard,
            two: Some(arrival.bytes),
        })
    }
}
