//! The terms that are known of an exchange.
ghost use Rattle.std.specs.Prelude.{◌≡◌, IfSome, option_map};
ghost use Rattle.bar_wire.specs.Code.Views.{AreTermWindows};
ghost use Rattle.bar_rules.specs.Member.{Member};
ghost use Rattle.bar_rules.specs.Peer.Knowledge.{Knowledge};
ghost use Rattle.bar_ledger.specs.Code.Memory.{find_in};
ghost use Rattle.bar_exchange.specs.Code.Writing.{AreSourcesOf};

use crate::aligned::are_windows_in;
use crate::sources::Sources;
use bar_window::{Exchange, Terms};

/// The terms of an exchange, as far as they are known, or `None` if none are kept whose windows are those of its round.
pub fn kept_terms(sources: &Sources<'_>, x: Exchange) -> Option<Terms>
    ensures kept { (me : Member) (k : Knowledge) → AreSourcesOf me k sources.now
        → result ≡ option_map (λ kept. kept.entry.terms) (find_in sources.now.ledger.now x) }
    ensures windows { IfSome result (AreTermWindows sources.now.session.now.shape x.round) }
{
    let shape = sources.session.shape();
    let entry = sources.ledger.find(x)?;
    are_windows_in(&entry.terms, &shape, x.round).then_some(entry.terms)
}
