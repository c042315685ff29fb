//! Which datagrams of balanced exchanges a peer admits.
ghost use Rattle.std.specs.Prelude.{◌≡◌, ◌+◌, ◌≤◌, ℕ, List, Some, true};
ghost use Rattle.bar_seeds.specs.Code.Checkpoints.{kept_round, MovesOn};
ghost use Rattle.bar_window.specs.declared.exchange.XKind.TheVariants.{Balanced};
ghost use Rattle.bar_session.specs.Points.{AreSeeds};
ghost use Rattle.bar_wire.specs.Bodies.{choice_round, request_round};
ghost use Rattle.bar_wire.specs.Code.Views.{plain, IsView};
ghost use Rattle.bar_rules.specs.Member.{Member};
ghost use Rattle.bar_rules.specs.Peer.Admission.{is_row_met};
ghost use Rattle.bar_rules.specs.Peer.Knowledge.{Knowledge};
ghost use Rattle.bar_store.specs.Code.Holds.{Holds};
ghost use Rattle.bar_ledger.specs.Code.Recalls.{Recalls};
ghost use Rattle.bar_exchange.specs.Code.Placing.{StandsAt};
ghost use Rattle.bar_balanced.specs.Code.Balanced.{AreSpelled};

use crate::divulge::admits_divulge;
use crate::rows::admits_response;
use bar_bytes::Steps;
use bar_exchange::{Counts, admits_case, admits_key, admits_key_request, may_ask};
use bar_ledger::Ledger;
use bar_roster::Session;
use bar_seeds::Checkpoints;
use bar_store::Store;
use bar_wire::{Body, Place, View};
use std::sync::ledger::Ledger as StepLedger;

/// Whether a datagram of a balanced exchange meets the row of its kind. It counts the steps along the seeds for a REQUEST.
#[tactic(auto, using(bar_seeds::proofs::CheckpointLemmas::moves_none))]
pub fn admit<L: StepLedger>(
    session: &Session,
    store: &Store,
    ledger: &Ledger,
    view: &View<'_>,
    place: Place,
    points: &mut Checkpoints,
    steps: &mut Steps<L>,
) -> bool
    requires seeds { AreSeeds session.now points.old }
    requires place { StandsAt view.now (Some place) }
    requires kind { place.x.kind ≡ Balanced }
    ensures row { (me : Member) (k : Knowledge) (bytes : List ℕ) → me.session ≡ session.now → Holds me k store.now
        → Recalls me k ledger.now → AreSpelled me k → IsView session.now.shape bytes view.now
        → result ≡ is_row_met me k view.now.from view.now.to (plain view.now.body) }
    ensures cost { steps.new ≤ steps.old + request_round (plain view.now.body) }
    ensures kept { AreSeeds session.now points.new }
    ensures moves { MovesOn view.now.from points.old points.new }
    ensures reached { result ≡ true → choice_round (plain view.now.body) ≤ kept_round points.new view.now.from }
{
    let Place { x, role } = place;
    match view.body {
        Body::Request { seed, .. } => may_ask(session, ledger, x, seed, points, steps),
        Body::Response { hb, .. } => admits_response(store, ledger, x, &hb),
        Body::Divulge { nonce, ha, .. } => admits_divulge(store, ledger, x, nonce, &ha),
        Body::Case {
            updates,
            junk,
            terms,
            ..
        } => admits_case(ledger, x, role, &terms, Counts { updates, junk }),
        Body::KeyReq { .. } => admits_key_request(ledger, x, role),
        Body::Key { .. } => admits_key(ledger, x, role),
        _ => false,
    }
}
