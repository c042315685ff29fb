//! Which datagrams a peer admits.
ghost use Rattle.std.specs.Prelude.{◌≡◌, ◌+◌, ◌≤◌, ◌&&◌, ℕ, List, true, if◌then◌else◌};
ghost use Rattle.bar_seeds.specs.Code.Checkpoints.{kept_round};
ghost use Rattle.bar_session.specs.Points.{AreSeeds};
ghost use Rattle.bar_wire.specs.Bodies.{choice_round};
ghost use Rattle.bar_seal.specs.Code.Memo.{has_pair, with_pair};
ghost use Rattle.bar_wire.specs.Datagram.{Block, is_signed};
ghost use Rattle.bar_peer.specs.Code.Checking.{Checks, FollowsSeed, IsGuardOf, Remembers, shown_by};
ghost use Rattle.bar_wire.specs.Bodies.{is_peer_kind};
ghost use Rattle.bar_wire.specs.Code.Views.{datagram, plain, IsView};
ghost use Rattle.bar_session.specs.Time.{round_after};
ghost use Rattle.bar_rules.specs.Member.{is_alive};
ghost use Rattle.bar_rules.specs.Peer.Admission.{is_admitted, is_for, is_row_met, has_valid_signature};
ghost use Rattle.bar_rules.specs.Peer.Evidence.{is_tried};
ghost use Rattle.bar_rules.specs.Peer.Knowledge.{Knowledge};
ghost use Rattle.bar_rules.specs.Verifiers.{IsVerifierOf};
ghost use Rattle.bar_laws.specs.Soundness.{IsSound};
ghost use Rattle.bar_balanced.specs.Code.Balanced.{AreSpelled};
ghost use Rattle.bar_peer.specs.Code.Arrivals.{IsReadBy, datagram_by, checked_by};
ghost use Rattle.bar_peer.specs.Code.Memory.{member_of, IsMemoryOf};
ghost use Rattle.bar_peer.specs.Code.Repeats.{is_of_exchange};
ghost use Rattle.bar_peer.specs.Code.Trying.{may_admit, may_show};

use crate::arrival::Arrival;
use crate::guard::Guard;
use crate::memory::Memory;
use crate::weighed::Weighed;
use bar_bytes::Steps;
use bar_exchange::is_within;
use bar_laws::rooms::signed_datagrams_are_short;
use bar_seal::{Checker, Verifier};
use bar_seeds::Checkpoints;
use bar_store::Added;
use bar_window::{BLOCK_SIZE, UpdateId, XKind};
use bar_wire::{Body, EVERYONE, View, is_peer_kind};
use std::sync::ledger::Ledger as StepLedger;

impl Memory {
    /// Whether a datagram is addressed to this peer.
    fn is_receiver(&self, view: &View<'_>) -> bool
        ensures { result ≡ is_for (member_of self.now.who) (datagram self.now.who.session.shape view.now).message }
    {
        match view.body {
            Body::Manifest { .. } | Body::Evict { .. } => view.to == EVERYONE,
            _ => view.to == self.who.secrets.party,
        }
    }

    /// Whether the updates of a round are alive.
    fn is_alive(&self, round: u32) -> bool
        ensures { result ≡ is_alive self.now.who.session round (round_after self.now.ticks) }
    {
        u64::from(self.round()) < u64::from(round) + u64::from(self.who.session.shape().life)
    }

    /// Whether a BLOCK meets the row of its kind. If the update is held, its block isn't hashed.
    fn is_new_block(&self, id: UpdateId, block: &[u8; BLOCK_SIZE]) -> bool
        ensures { (k : Knowledge) (from to : ℕ) → IsMemoryOf (member_of self.now.who) k self.now
            → result ≡ is_row_met (member_of self.now.who) k from to (Block id block.now) }
    {
        if self.store.holds(id) {
            return false;
        }
        self.store.cause(id, block, self.round()) == Added::New
    }

    /// Whether a datagram meets the row of its kind. It counts the steps along the seeds.
    #[tactic(auto, using(crate::proofs::Stepping::Guards::follows_none))]
    fn meets_row<L: StepLedger>(
        &self,
        arrival: &Arrival<'_>,
        points: &mut Checkpoints,
        steps: &mut Steps<L>,
    ) -> bool
        requires points { AreSeeds self.now.who.session points.old }
        ensures row { (k : Knowledge) (bytes : List ℕ) → IsMemoryOf (member_of self.now.who) k self.now
            → AreSpelled (member_of self.now.who) k → IsView self.now.who.session.shape bytes arrival.now.view
            → result ≡ is_row_met (member_of self.now.who) k arrival.now.view.from arrival.now.view.to (plain arrival.now.view.body) }
        ensures follows { FollowsSeed self.now.who.session (shown_by self.now.who arrival.now) points.old points.new steps.old steps.new }
        ensures reached { result ≡ true → choice_round (plain arrival.now.view.body) ≤ kept_round points.new arrival.now.view.from }
    {
        let round = self.round();
        match arrival.view.body {
            Body::Manifest { round: r, .. } => r <= round + 1 && self.is_alive(r),
            Body::Evict { round: r, .. } => r <= round + 1,
            Body::Block {
                round: r,
                index,
                block,
            } => self.is_new_block(UpdateId { round: r, index }, block),
            _ => self.meets_row_of_exchange(arrival, points, steps),
        }
    }

    /// Whether a datagram of an exchange meets the row of its kind.
    #[tactic(auto, using(crate::proofs::Stepping::Guards::follows_none))]
    fn meets_row_of_exchange<L: StepLedger>(
        &self,
        arrival: &Arrival<'_>,
        points: &mut Checkpoints,
        steps: &mut Steps<L>,
    ) -> bool
        requires points { AreSeeds self.now.who.session points.old }
        ensures row { (k : Knowledge) (bytes : List ℕ) → IsMemoryOf (member_of self.now.who) k self.now
            → AreSpelled (member_of self.now.who) k → IsView self.now.who.session.shape bytes arrival.now.view
            → result ≡ (is_of_exchange (plain arrival.now.view.body)
            && is_row_met (member_of self.now.who) k arrival.now.view.from arrival.now.view.to (plain arrival.now.view.body)) }
        ensures follows { FollowsSeed self.now.who.session (shown_by self.now.who arrival.now) points.old points.new steps.old steps.new }
        ensures reached { result ≡ true → choice_round (plain arrival.now.view.body) ≤ kept_round points.new arrival.now.view.from }
    {
        let Some(place) = arrival.place else {
            return false;
        };
        let session = &self.who.session;
        match place.x.kind {
            XKind::Balanced => bar_balanced::admit(
                session,
                &self.store,
                &self.ledger,
                &arrival.view,
                place,
                points,
                steps,
            ),
            XKind::Push => bar_push::admit(
                session,
                &self.store,
                &self.ledger,
                &arrival.view,
                place,
                points,
                steps,
            ),
        }
    }

    /// Whether the signature is accepted under the sender's key; true if the kind isn't signed. It counts each hash, and none if the
    /// datagram is remembered.
    fn is_valid<V: Verifier, L: StepLedger>(
        &self,
        checker: &mut Checker<V>,
        arrival: &Arrival<'_>,
        steps: &mut Steps<L>,
    ) -> bool
        requires view { IsReadBy self.now.who arrival.now }
        requires verifier { IsVerifierOf self.now.who.session (V.is_accepted checker.old.verifier) }
        requires size { V.signature_len checker.old.verifier ≡ self.now.who.session.shape.sig_len }
        ensures exact { result ≡ has_valid_signature self.now.who.session (datagram_by self.now.who arrival.now) }
        ensures remembered { has_pair (checked_by self.now.who arrival.now) checker.old.memo.pairs ≡ true
            → steps.new ≡ steps.old }
        ensures most { steps.new ≤ steps.old + V.most_steps checker.old.verifier }
        ensures memo { checker.new.memo ≡ (if result && is_signed (plain arrival.now.view.body)
            then with_pair (checked_by self.now.who arrival.now) checker.old.memo else checker.old.memo) }
        ensures verifier { checker.new.verifier ≡ checker.old.verifier }
    {
        signed_datagrams_are_short();
        let view = &arrival.view;
        if view.sig.is_none() {
            return true;
        }
        let session = &self.who.session;
        let _shape = session.shape();
        checker.check(session.key(view.from), arrival.bytes, view, steps)
    }

    /// Whether a datagram is admitted, if its signature is accepted. If a datagram of the same name was admitted before, no more of this
    /// one is examined. It counts the steps along the seeds.
    #[tactic(auto, using(crate::proofs::Stepping::Guards::follows_none))]
    pub fn may_admit<L: StepLedger>(
        &self,
        arrival: &Arrival<'_>,
        points: &mut Checkpoints,
        steps: &mut Steps<L>,
    ) -> bool
        requires points { AreSeeds self.now.who.session points.old }
        requires view { IsReadBy self.now.who arrival.now }
        ensures exact { (k : Knowledge) → IsMemoryOf (member_of self.now.who) k self.now → AreSpelled (member_of self.now.who) k
            → result ≡ may_admit (member_of self.now.who) k (datagram_by self.now.who arrival.now) }
        ensures follows { FollowsSeed self.now.who.session (shown_by self.now.who arrival.now) points.old points.new steps.old steps.new }
        ensures reached { result ≡ true → choice_round (plain arrival.now.view.body) ≤ kept_round points.new arrival.now.view.from }
    {
        if !self.is_receiver(&arrival.view) {
            return false;
        }
        if self.evictions.is_named(arrival.view.from) {
            return false;
        }
        if self.is_heard_again(arrival) {
            return false;
        }
        self.meets_row(arrival, points, steps)
    }

    /// Whether a datagram is searched for evidence, if its signature is accepted. It must be of a kind that peers sign, addressed to this
    /// peer, and of a round that may still be asked about. Its sender must not be announced evicted, and no evidence against it may be
    /// kept.
    pub fn may_show(&self, arrival: &Arrival<'_>) -> bool
        ensures exact { (k : Knowledge) → IsMemoryOf (member_of self.now.who) k self.now
            → result ≡ may_show (member_of self.now.who) k (datagram_by self.now.who arrival.now) }
        ensures kind { result ≡ true → is_peer_kind (plain arrival.now.view.body) ≡ true }
    {
        let view = &arrival.view;
        if !is_peer_kind(&view.body) || view.to != self.who.secrets.party {
            return false;
        }
        let sender = view.from;
        if self.evictions.is_named(sender) {
            return false;
        }
        if self.evidence.get(usize::from(sender)).is_some() {
            return false;
        }
        match arrival.place {
            Some(place) => {
                let life = self.who.session.shape().life;
                is_within(self.round(), place.x.round, life)
            }
            None => false,
        }
    }

    /// Whether a datagram is admitted, and whether it is searched for evidence. At most one signature is verified, and none if neither
    /// result depends on it. It counts each hash.
    pub fn weigh<V: Verifier, L: StepLedger>(
        &self,
        guard: &mut Guard<V>,
        arrival: &Arrival<'_>,
        steps: &mut Steps<L>,
    ) -> Weighed
        requires view { IsReadBy self.now.who arrival.now }
        requires guard { IsGuardOf self.now.who.session guard.old }
        ensures admitted { (k : Knowledge) → IsMemoryOf (member_of self.now.who) k self.now → IsSound (member_of self.now.who) k
            → result.is_admitted ≡ is_admitted (member_of self.now.who) k (datagram_by self.now.who arrival.now) }
        ensures tried { (k : Knowledge) → IsMemoryOf (member_of self.now.who) k self.now → IsSound (member_of self.now.who) k
            → result.is_tried ≡ is_tried (member_of self.now.who) k (datagram_by self.now.who arrival.now) }
        ensures kind { result.is_tried ≡ true → is_peer_kind (plain arrival.now.view.body) ≡ true }
        ensures checks { Checks self.now.who.session (shown_by self.now.who arrival.now) 1 guard.old guard.new steps.old steps.new }
        ensures remembers { result.is_admitted ≡ true → Remembers (shown_by self.now.who arrival.now) guard.old guard.new }
    {
        let none = Weighed {
            is_admitted: false,
            is_tried: false,
        };
        let is_admitted = self.may_admit(arrival, &mut guard.points, steps);
        let is_tried = self.may_show(arrival);
        let is_asked = is_admitted || is_tried;
        if !is_asked {
            return none;
        }
        if !self.is_valid(&mut guard.checker, arrival, steps) {
            return none;
        }
        Weighed {
            is_admitted,
            is_tried,
        }
    }
}
