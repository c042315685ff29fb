//! The replies to the datagrams of balanced exchanges.
ghost use Rattle.std.specs.Prelude.{◌≡◌, ◌+◌, ◌≤◌, ◌||◌, ◌&&◌, [], ◌∷◌, Some, true, nat_le};
ghost use Rattle.bar_window.specs.declared.exchange.XKind.TheVariants.{Balanced};
ghost use Rattle.bar_wire.specs.Code.Views.{datagram};
ghost use Rattle.bar_rules.specs.Member.{Member};
ghost use Rattle.bar_rules.specs.Peer.Agreement.{IsRecent};
ghost use Rattle.bar_rules.specs.Peer.Knowledge.{Knowledge, this_round};
ghost use Rattle.bar_rules.specs.Peer.Orders.{Reveal, GiveCase};
ghost use Rattle.bar_rules.specs.Peer.Replies.{is_trade_worth, orders_when, reply_orders};
ghost use Rattle.bar_rules.specs.Peer.Terms.{terms_of};
ghost use Rattle.bar_ledger.specs.Code.Recalls.{Recalls};
ghost use Rattle.bar_exchange.specs.Code.Placing.{StandsAt};
ghost use Rattle.bar_exchange.specs.Code.Says.{orders_of_reply, AreFitting};

use crate::worth::is_worth;
use bar_exchange::{ANSWER_DEADLINE, REQUEST_DEADLINE, Say, Says};
use bar_ledger::Ledger;
use bar_roster::Session;
use bar_window::Exchange;
use bar_wire::{Body, Kind, Place, View};

/// The replies to a RESPONSE that is admitted now: the DIVULGE and the CASE.
fn to_response(ledger: &Ledger, x: Exchange, is_new: bool) -> Says
    ensures fitting { AreFitting result }
    ensures orders { (me : Member) (k : Knowledge) → Recalls me k ledger.now → (is_new ≡ true → IsRecent me k x.round)
        → orders_of_reply result ≡ orders_when (is_new && is_trade_worth me.session (terms_of me k x)) (Reveal x ∷ GiveCase x ∷ []) }
{
    if is_new && is_worth(ledger, x) {
        let reveal = Say {
            kind: Kind::Divulge,
            x,
        };
        let case = Say {
            kind: Kind::Case,
            x,
        };
        Says::Two(reveal, case)
    } else {
        Says::Nothing
    }
}

/// The reply to a DIVULGE: the CASE.
fn to_divulge(ledger: &Ledger, x: Exchange, is_new: bool) -> Says
    ensures fitting { AreFitting result }
    ensures orders { (me : Member) (k : Knowledge) → 2 ≤ me.session.shape.life → Recalls me k ledger.now
        → (is_new ≡ true → IsRecent me k x.round)
        → orders_of_reply result ≡
        orders_when ((is_new || nat_le (this_round k) (x.round + 2)) && is_trade_worth me.session (terms_of me k x)) (GiveCase x ∷ []) }
{
    if is_new || ledger.is_within(x, ANSWER_DEADLINE) {
        Says::one_when(is_worth(ledger, x), Kind::Case, x)
    } else {
        Says::Nothing
    }
}

/// The replies to a datagram of a balanced exchange that is admitted now or is a repeat.
pub fn replies(
    session: &Session,
    ledger: &Ledger,
    view: &View<'_>,
    place: Place,
    is_new: bool,
) -> Says
    requires place { StandsAt view.now (Some place) }
    requires kind { place.x.kind ≡ Balanced }
    ensures orders { (me : Member) (k : Knowledge) → me.session ≡ session.now → Recalls me k ledger.now
        → (is_new ≡ true → IsRecent me k place.x.round)
        → orders_of_reply result ≡ reply_orders me k is_new (datagram session.now.shape view.now) }
    ensures fitting { AreFitting result }
{
    let life = session.shape().life;
    let x = place.x;
    match view.body {
        Body::Request { .. } => Says::one_when(
            is_new || ledger.is_within(x, REQUEST_DEADLINE),
            Kind::Response,
            x,
        ),
        Body::Response { .. } => to_response(ledger, x, is_new),
        Body::Divulge { .. } => to_divulge(ledger, x, is_new),
        Body::Case { .. } => Says::one_when(is_new, Kind::KeyReq, x),
        Body::KeyReq { .. } => Says::one_when(is_new || ledger.is_within(x, life), Kind::Key, x),
        _ => Says::Nothing,
    }
}
