//! When a QUERY is admitted.
ghost use Rattle.std.specs.Prelude.{◌≡◌, ◌+◌, ◌≤◌, ℕ, nat_lt, length, true};
ghost use Rattle.bar_window.specs.declared.exchange.XKind.TheVariants.{Push};
ghost use Rattle.bar_window.specs.Code.Window.{members};
ghost use Rattle.bar_terms.specs.Terms.{offer_ok};
ghost use Rattle.bar_seeds.specs.Code.Checkpoints.{kept_round, MovesOn};
ghost use Rattle.bar_session.specs.Points.{AreSeeds};
ghost use Rattle.bar_wire.specs.Datagram.{Query};
ghost use Rattle.bar_wire.specs.Grammar.{IsPeer};
ghost use Rattle.bar_wire.specs.Code.Views.{IsWindowIn};
ghost use Rattle.bar_rules.specs.Member.{Member};
ghost use Rattle.bar_rules.specs.Peer.Admission.{is_row_met};
ghost use Rattle.bar_rules.specs.Peer.Choices.{wanted_of};
ghost use Rattle.bar_rules.specs.Peer.Knowledge.{Knowledge, this_round, answer_deadline, table_of};
ghost use Rattle.bar_store.specs.Code.Holds.{Holds};
ghost use Rattle.bar_ledger.specs.Code.Recalls.{Recalls};
ghost use Rattle.bar_push.specs.Code.Chosen.{is_offer_within};

use crate::choosing::answer_to_offer;
use crate::offer::Offer;
use bar_bytes::Steps;
use bar_exchange::{REQUEST_DEADLINE, has_digests, is_window_of, may_ask};
use bar_ledger::Ledger;
use bar_roster::Session;
use bar_seeds::Checkpoints;
use bar_store::Store;
use bar_terms::offer_ok;
use std::sync::ledger::Ledger as StepLedger;

/// Whether an offer is valid under the table.
fn is_valid_offer(store: &Store, cap: u8, offer: &Offer) -> bool
    ensures { (me : Member) (k : Knowledge) → Holds me k store.now → cap ≡ me.session.cap
        → IsWindowIn me.session.shape offer.now.x.round offer.now.aged
        → result ≡ offer_ok me.session.cap me.session.shape.life (table_of k) offer.now.x.round
        (members offer.now.young) (members offer.now.aged) }
{
    let life = store.life();
    if !is_window_of(&offer.aged, life, offer.x.round) {
        return false;
    }
    offer_ok(
        &offer.young,
        &offer.aged,
        offer.x.round,
        cap,
        life,
        store.table(),
    )
}

/// Whether an offer is valid under the table, and each of its updates has a digest there.
fn is_offer_within(store: &Store, cap: u8, offer: &Offer) -> bool
    ensures { (me : Member) (k : Knowledge) → Holds me k store.now → cap ≡ me.session.cap
        → IsWindowIn me.session.shape offer.now.x.round offer.now.aged
        → result ≡ is_offer_within me k offer.now.x.round (members offer.now.young) (members offer.now.aged) }
{
    if !is_valid_offer(store, cap, offer) {
        return false;
    }
    if !has_digests(store, &offer.young) {
        return false;
    }
    has_digests(store, &offer.aged)
}

/// Whether the responder wants something of an offer.
fn wants_some(store: &Store, cap: u8, offer: &Offer) -> bool
    ensures { (me : Member) (k : Knowledge) → Holds me k store.now → cap ≡ me.session.cap
        → this_round k ≤ offer.now.x.round + answer_deadline
        → IsWindowIn me.session.shape offer.now.x.round offer.now.young → IsWindowIn me.session.shape offer.now.x.round offer.now.aged
        → result ≡ nat_lt 0 (length (wanted_of me k (members offer.now.young))) }
{
    let answer = answer_to_offer(store, &offer.young, &offer.aged, cap, offer.x.round);
    answer.want.size() > 0
}

/// Whether a QUERY meets its row. The steps along the seeds are counted last, if all other conditions hold.
#[tactic(auto, using(bar_seeds::proofs::CheckpointLemmas::moves_none))]
pub(crate) fn admits_query<L: StepLedger>(
    session: &Session,
    store: &Store,
    ledger: &Ledger,
    seed: &[u8; 32],
    offer: &Offer,
    points: &mut Checkpoints,
    steps: &mut Steps<L>,
) -> bool
    requires { AreSeeds session.now points.old }
    ensures row { (me : Member) (k : Knowledge) (to : ℕ) → me.session ≡ session.now → Holds me k store.now → Recalls me k ledger.now
        → IsPeer session.now.shape offer.now.x.initiator → offer.now.x.kind ≡ Push
        → IsWindowIn me.session.shape offer.now.x.round offer.now.young → IsWindowIn me.session.shape offer.now.x.round offer.now.aged
        → result ≡ is_row_met me k offer.now.x.initiator to
        (Query offer.now.x.round seed.now (members offer.now.young) (members offer.now.aged)) }
    ensures cost { steps.new ≤ steps.old + offer.now.x.round }
    ensures kept { AreSeeds session.now points.new }
    ensures moves { MovesOn offer.now.x.initiator points.old points.new }
    ensures reached { result ≡ true → offer.now.x.round ≤ kept_round points.new offer.now.x.initiator }
{
    if !ledger.is_within(offer.x, REQUEST_DEADLINE) {
        return false;
    }
    if !is_offer_within(store, ledger.cap(), offer) {
        return false;
    }
    if !wants_some(store, ledger.cap(), offer) {
        return false;
    }
    may_ask(session, ledger, offer.x, seed, points, steps)
}
