//! Whether given terms are those of an exchange.
ghost use Rattle.std.specs.Prelude.{◌≡◌};
ghost use Rattle.bar_window.specs.Terms.{plain_terms};
ghost use Rattle.bar_wire.specs.Code.Views.{AreTermWindows};
ghost use Rattle.bar_rules.specs.Member.{Member};
ghost use Rattle.bar_rules.specs.Peer.Admission.{are_terms};
ghost use Rattle.bar_rules.specs.Peer.Agreement.{IsRecent};
ghost use Rattle.bar_rules.specs.Peer.Knowledge.{Knowledge};
ghost use Rattle.bar_rules.specs.Peer.Terms.{terms_of};
ghost use Rattle.bar_ledger.specs.Code.Recalls.{Recalls};

use bar_ledger::Ledger;
use bar_window::{Exchange, Terms};

/// Whether given terms are those that are known of an exchange.
pub fn are_terms(ledger: &Ledger, x: Exchange, terms: &Terms) -> bool
    ensures { (me : Member) (k : Knowledge) → Recalls me k ledger.now → IsRecent me k x.round
        → AreTermWindows me.session.shape x.round terms.now
        → result ≡ are_terms (plain_terms terms.now) (terms_of me k x) }
{
    match ledger.find(x) {
        Some(entry) => entry.complete && entry.terms == *terms,
        None => false,
    }
}
