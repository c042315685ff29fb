//! When a RESPONSE is admitted.
ghost use Rattle.std.specs.Prelude.{◌≡◌, ◌≤◌, ℕ};
ghost use Rattle.bar_window.specs.declared.exchange.XKind.TheVariants.{Balanced};
ghost use Rattle.bar_window.specs.declared.exchange.Role.TheVariants.{Responder};
ghost use Rattle.bar_window.specs.Code.Window.{members};
ghost use Rattle.bar_wire.specs.Datagram.{Response, exchange_by};
ghost use Rattle.bar_rules.specs.Member.{Member};
ghost use Rattle.bar_rules.specs.Peer.Admission.{is_row_met};
ghost use Rattle.bar_rules.specs.Peer.Knowledge.{Knowledge};
ghost use Rattle.bar_store.specs.Code.Holds.{Holds};
ghost use Rattle.bar_ledger.specs.Code.Recalls.{Recalls};

use bar_exchange::{ANSWER_DEADLINE, has_digests};
use bar_ledger::Ledger;
use bar_store::Store;
use bar_window::{Exchange, Role, Window};
use bar_wire::Kind;

/// Whether a RESPONSE meets its row.
pub(crate) fn admits_response(store: &Store, ledger: &Ledger, x: Exchange, hb: &Window) -> bool
    ensures { (me : Member) (k : Knowledge) (from to r : ℕ) → Holds me k store.now → Recalls me k ledger.now → 2 ≤ me.session.shape.life
        → x ≡ exchange_by r Balanced Responder from to
        → result ≡ is_row_met me k from to (Response r (members hb.now)) }
{
    if !ledger.is_within(x, ANSWER_DEADLINE) {
        return false;
    }
    if !ledger.has_said(x, Kind::Request, Role::Initiator) {
        return false;
    }
    has_digests(store, hb)
}
