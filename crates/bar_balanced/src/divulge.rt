//! When a DIVULGE is admitted.
ghost use Rattle.std.specs.Prelude.{◌≡◌, ◌≤◌, ℕ};
ghost use Rattle.bar_window.specs.declared.exchange.XKind.TheVariants.{Balanced};
ghost use Rattle.bar_window.specs.declared.exchange.Role.TheVariants.{Initiator};
ghost use Rattle.bar_window.specs.Code.Window.{members};
ghost use Rattle.bar_wire.specs.Bodies.{commitment_in};
ghost use Rattle.bar_wire.specs.Datagram.{Datagram, Divulge, exchange_by};
ghost use Rattle.bar_wire.specs.Grammar.{SpellsDatagram};
ghost use Rattle.bar_wire.specs.Code.Views.{IsWindowIn};
ghost use Rattle.bar_rules.specs.Member.{Member};
ghost use Rattle.bar_rules.specs.Peer.Admission.{is_row_met, meets_commitment};
ghost use Rattle.bar_rules.specs.Peer.Agreement.{IsRecent};
ghost use Rattle.bar_rules.specs.Peer.Knowledge.{Knowledge};
ghost use Rattle.bar_store.specs.Code.Holds.{Holds};
ghost use Rattle.bar_ledger.specs.Code.Recalls.{Recalls};
ghost use Rattle.bar_balanced.specs.Code.Balanced.{AreSpelled};

use bar_exchange::{ANSWER_DEADLINE, has_digests, is_window_in};
use bar_ledger::Ledger;
use bar_seeds::commitment;
use bar_store::Store;
use bar_window::{Exchange, Role, Window};
use bar_wire::{Body, Kind, Shape, decode};

/// The commitment in a REQUEST.
fn commitment_in(bytes: &[u8], shape: &Shape) -> Option<[u8; 32]>
    ensures { (d : Datagram) → SpellsDatagram shape.now d bytes.now → result ≡ commitment_in d.message.body }
{
    match decode(bytes, shape) {
        Ok(view) => match view.body {
            Body::Request { commitment, .. } => Some(*commitment),
            _ => None,
        },
        Err(_) => None,
    }
}

/// Whether a nonce and a history match the commitment in the REQUEST that was heard in an exchange.
fn meets_commitment(ledger: &Ledger, x: Exchange, nonce: &[u8; 32], ha: &Window) -> bool
    ensures { (me : Member) (k : Knowledge) → Recalls me k ledger.now → AreSpelled me k
        → IsRecent me k x.round → IsWindowIn me.session.shape x.round ha.now
        → result ≡ meets_commitment me k x nonce.now (members ha.now) }
{
    let shape = ledger.shape();
    if !is_window_in(ha, &shape, x.round) {
        return false;
    }
    let Some(bytes) = ledger.heard(x, Kind::Request) else {
        return false;
    };
    let Some(committed) = commitment_in(bytes, &shape) else {
        return false;
    };
    committed == commitment(&shape.id, x, nonce, ha, shape.life)
}

/// Whether a DIVULGE meets its row.
pub(crate) fn admits_divulge(
    store: &Store,
    ledger: &Ledger,
    x: Exchange,
    nonce: &[u8; 32],
    ha: &Window,
) -> bool
    ensures { (me : Member) (k : Knowledge) (from to r : ℕ) → Holds me k store.now → Recalls me k ledger.now
        → AreSpelled me k → 2 ≤ me.session.shape.life → x ≡ exchange_by r Balanced Initiator from to
        → IsWindowIn me.session.shape r ha.now → result ≡ is_row_met me k from to (Divulge r nonce.now (members ha.now)) }
{
    if !ledger.is_within(x, ANSWER_DEADLINE) {
        return false;
    }
    if ledger.has_heard(x, Kind::Divulge, Role::Initiator) {
        return false;
    }
    if !has_digests(store, ha) {
        return false;
    }
    meets_commitment(ledger, x, nonce, ha)
}
