//! When a CASE is admitted.
ghost use Rattle.std.specs.Prelude.{◌≡◌, ◌≤◌, ℕ, List};
ghost use Rattle.bar_window.specs.declared.update.UpdateId.{UpdateId};
ghost use Rattle.bar_window.specs.Code.Window.{members};
ghost use Rattle.bar_window.specs.Terms.{Push, plain_terms};
ghost use Rattle.bar_wire.specs.Datagram.{Briefcase, Case, exchange_by};
ghost use Rattle.bar_wire.specs.Code.Views.{AreTermWindows};
ghost use Rattle.bar_rules.specs.Member.{Member, Session};
ghost use Rattle.bar_rules.specs.Values.{counts_ok};
ghost use Rattle.bar_rules.specs.Peer.Admission.{is_row_met};
ghost use Rattle.bar_rules.specs.Peer.Knowledge.{Knowledge};
ghost use Rattle.bar_ledger.specs.Code.Recalls.{Recalls};
ghost use Rattle.bar_exchange.specs.Code.Counts.{HasCounts};

use crate::aligned::are_aligned;
use crate::counts::Counts;
use crate::same_terms::are_terms;
use bar_ledger::{ANSWER_DEADLINE, Ledger};
use bar_terms::balanced_count;
use bar_window::{Exchange, Role, Terms, Window};
use bar_wire::Kind;

/// Whether the counts are those of a side's promise in a push in which the responder wants and gives these updates and this junk.
fn are_of_push(counts: Counts, role: Role, want: &Window, give: &Window, junk: u8) -> bool
    ensures { (s : Session) (young aged : List UpdateId) (c : Briefcase) → HasCounts counts c → c.role ≡ role
        → c.terms ≡ Push young aged (members want.now) (members give.now) junk → result ≡ counts_ok s c }
{
    let (updates, padding) = match role {
        Role::Initiator => (want.size(), 0),
        Role::Responder => (give.size(), junk),
    };
    u32::from(counts.updates) == updates && counts.junk == padding
}

/// Whether the counts are those of a side's promise under the terms.
fn are_promised(counts: Counts, terms: &Terms, role: Role, cap: u8) -> bool
    ensures { (s : Session) (round : ℕ) (c : Briefcase) → cap ≡ s.cap → AreTermWindows s.shape round terms.now
        → c.role ≡ role → HasCounts counts c → c.terms ≡ plain_terms terms.now → result ≡ counts_ok s c }
{
    match terms {
        Terms::Balanced { ha, hb, .. } => {
            counts.junk == 0 && are_aligned(ha, hb) && counts.updates == balanced_count(ha, hb, cap)
        }
        Terms::Push {
            want,
            give,
            junk,
            ..
        } => are_of_push(counts, role, want, give, *junk),
    }
}

/// Whether a CASE of a side meets its row.
pub fn admits_case(ledger: &Ledger, x: Exchange, role: Role, terms: &Terms, counts: Counts) -> bool
    ensures { (me : Member) (k : Knowledge) (from to : ℕ) (c : Briefcase) → Recalls me k ledger.now → 2 ≤ me.session.shape.life
        → x ≡ exchange_by c.round c.kind role from to → c.role ≡ role
        → AreTermWindows me.session.shape c.round terms.now → HasCounts counts c → c.terms ≡ plain_terms terms.now
        → result ≡ is_row_met me k from to (Case c) }
{
    if !ledger.is_within(x, ANSWER_DEADLINE) {
        return false;
    }
    if !ledger.has_said(x, Kind::Case, role.other()) {
        return false;
    }
    if !are_terms(ledger, x, terms) {
        return false;
    }
    are_promised(counts, terms, role, ledger.cap())
}
