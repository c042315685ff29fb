//! The known parts of the terms of a push.
ghost use Rattle.std.specs.Prelude.{◌≡◌, IfSome, option_map};
ghost use Rattle.bar_window.specs.Code.Window.{members};
ghost use Rattle.bar_wire.specs.Code.Views.{IsWindowIn};
ghost use Rattle.bar_rules.specs.Member.{Member};
ghost use Rattle.bar_rules.specs.Peer.Agreement.{IsRecent};
ghost use Rattle.bar_rules.specs.Peer.Knowledge.{Knowledge};
ghost use Rattle.bar_rules.specs.Peer.Writing.{offer_of, reply_of};
ghost use Rattle.bar_exchange.specs.Code.Writing.{AreSourcesOf};

use bar_exchange::{Sources, kept_terms};
use bar_terms::PushAnswer;
use bar_window::{Exchange, Terms, Window};

/// The young updates that the initiator offers and the aged ones that it asks for, if they are known.
pub(crate) fn offered(sources: &Sources<'_>, x: Exchange) -> Option<(Window, Window)>
    ensures known { (me : Member) (k : Knowledge) → AreSourcesOf me k sources.now → IsRecent me k x.round
        → option_map (λ q. (members q.0, members q.1)) result ≡ offer_of me k x }
    ensures young { IfSome result (λ q. IsWindowIn sources.now.session.now.shape x.round q.0) }
    ensures aged { IfSome result (λ q. IsWindowIn sources.now.session.now.shape x.round q.1) }
{
    if !sources.ledger.knows_offer(x) {
        return None;
    }
    let Terms::Push { young, aged, .. } = kept_terms(sources, x)? else {
        return None;
    };
    Some((young, aged))
}

/// What the responder wants and gives, with its junk, if it is known.
pub(crate) fn replied(sources: &Sources<'_>, x: Exchange) -> Option<PushAnswer>
    ensures known { (me : Member) (k : Knowledge) → AreSourcesOf me k sources.now → IsRecent me k x.round
        → option_map (λ a. (members a.want, members a.give, a.junk)) result ≡ reply_of me k x }
    ensures want { IfSome result (λ a. IsWindowIn sources.now.session.now.shape x.round a.want) }
    ensures give { IfSome result (λ a. IsWindowIn sources.now.session.now.shape x.round a.give) }
{
    if !sources.ledger.knows_answer(x) {
        return None;
    }
    let Terms::Push {
        want,
        give,
        junk,
        ..
    } = kept_terms(sources, x)?
    else {
        return None;
    };
    Some(PushAnswer { want, give, junk })
}
