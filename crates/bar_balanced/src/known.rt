//! The known parts of the terms of a balanced exchange.
ghost use Rattle.std.specs.Prelude.{◌≡◌, IfSome, option_map};
ghost use Rattle.bar_window.specs.Code.Window.{members};
ghost use Rattle.bar_wire.specs.Code.Views.{IsWindowIn};
ghost use Rattle.bar_rules.specs.Member.{Member};
ghost use Rattle.bar_rules.specs.Peer.Agreement.{IsRecent};
ghost use Rattle.bar_rules.specs.Peer.Knowledge.{Knowledge};
ghost use Rattle.bar_rules.specs.Peer.Writing.{answer_of};
ghost use Rattle.bar_exchange.specs.Code.Writing.{AreSourcesOf};

use bar_exchange::{Sources, kept_terms};
use bar_window::{Exchange, Terms, Window};

/// The nonce and the history that the initiator commits to, if they are known.
pub(crate) fn revealed(sources: &Sources<'_>, x: Exchange) -> Option<([u8; 32], Window)>
    ensures known { (me : Member) (k : Knowledge) → AreSourcesOf me k sources.now → IsRecent me k x.round
        → option_map (λ c. (c.0, members c.1)) result ≡ k.revealed x }
    ensures windows { IfSome result (λ c. IsWindowIn sources.now.session.now.shape x.round c.1) }
{
    if !sources.ledger.knows_commit(x) {
        return None;
    }
    let Terms::Balanced { nonce, ha, .. } = kept_terms(sources, x)? else {
        return None;
    };
    Some((nonce, ha))
}

/// The history that the responder answers with, if it is known.
pub(crate) fn answered(sources: &Sources<'_>, x: Exchange) -> Option<Window>
    ensures known { (me : Member) (k : Knowledge) → AreSourcesOf me k sources.now → IsRecent me k x.round
        → option_map members result ≡ answer_of me k x }
    ensures windows { IfSome result (IsWindowIn sources.now.session.now.shape x.round) }
{
    if !sources.ledger.knows_answer(x) {
        return None;
    }
    let Terms::Balanced { hb, .. } = kept_terms(sources, x)? else {
        return None;
    };
    Some(hb)
}
