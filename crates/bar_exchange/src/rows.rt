//! When a KEYREQ and a KEY are admitted.
ghost use Rattle.std.specs.Prelude.{◌≡◌, ℕ, List};
ghost use Rattle.bar_window.specs.declared.exchange.XKind.{XKind};
ghost use Rattle.bar_window.specs.Code.Window.{members};
ghost use Rattle.bar_terms.specs.Table.{is_within};
ghost use Rattle.bar_wire.specs.Datagram.{KeyReq, Key, exchange_by};
ghost use Rattle.bar_rules.specs.Member.{Member};
ghost use Rattle.bar_rules.specs.Peer.Admission.{is_row_met};
ghost use Rattle.bar_rules.specs.Peer.Knowledge.{Knowledge, table_of};
ghost use Rattle.bar_store.specs.Code.Holds.{Holds};
ghost use Rattle.bar_ledger.specs.Code.Recalls.{Recalls};

use bar_ledger::Ledger;
use bar_store::Store;
use bar_terms::within;
use bar_window::{Exchange, Role, Window};
use bar_wire::Kind;

/// Whether each update of a set has a digest in the table.
pub fn has_digests(store: &Store, updates: &Window) -> bool
    ensures { (me : Member) (k : Knowledge) → Holds me k store.now → result ≡ is_within (table_of k) (members updates.now) }
{
    within(updates, store.table())
}

/// Whether a KEYREQ of a side meets its row.
pub fn admits_key_request(ledger: &Ledger, x: Exchange, role: Role) -> bool
    ensures { (me : Member) (k : Knowledge) (kind : XKind) (from to r : ℕ) → Recalls me k ledger.now
        → x ≡ exchange_by r kind role from to → result ≡ is_row_met me k from to (KeyReq r kind role) }
{
    if !ledger.is_within(x, ledger.life()) {
        return false;
    }
    if !ledger.has_said(x, Kind::Case, role.other()) {
        return false;
    }
    if !ledger.has_heard(x, Kind::Case, role) {
        return false;
    }
    !ledger.has_heard(x, Kind::KeyReq, role)
}

/// Whether a KEY of a side meets its row.
pub fn admits_key(ledger: &Ledger, x: Exchange, role: Role) -> bool
    ensures { (me : Member) (k : Knowledge) (kind : XKind) (from to r : ℕ) (key : List ℕ) → Recalls me k ledger.now
        → x ≡ exchange_by r kind role from to
        → result ≡ is_row_met me k from to (Key (record { round = r; kind = kind; role = role; key = key })) }
{
    if !ledger.is_within(x, ledger.life()) {
        return false;
    }
    if !ledger.has_said(x, Kind::Case, role.other()) {
        return false;
    }
    ledger.has_heard(x, Kind::Case, role)
}
