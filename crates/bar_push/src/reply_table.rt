//! The replies to the datagrams of pushes.
ghost use Rattle.std.specs.Prelude.{◌≡◌, ◌||◌, [], ◌∷◌, Some};
ghost use Rattle.bar_window.specs.declared.exchange.XKind.TheVariants.{Push};
ghost use Rattle.bar_wire.specs.Code.Views.{datagram};
ghost use Rattle.bar_rules.specs.Member.{Member};
ghost use Rattle.bar_rules.specs.Peer.Knowledge.{Knowledge, this_round};
ghost use Rattle.bar_rules.specs.Peer.Orders.{Answer, GiveCase};
ghost use Rattle.bar_rules.specs.Peer.Replies.{orders_when, reply_orders};
ghost use Rattle.bar_exchange.specs.Code.Placing.{StandsAt};
ghost use Rattle.bar_exchange.specs.Code.Says.{orders_of_reply, AreFitting};

use bar_exchange::{REQUEST_DEADLINE, Say, Says, is_within};
use bar_roster::Session;
use bar_window::Exchange;
use bar_wire::{Body, Kind, Place, View};

/// The replies to a QUERY: the REPLY and the CASE.
fn to_query(is_due: bool, x: Exchange) -> Says
    ensures fitting { x.kind ≡ Push → AreFitting result }
    ensures orders { orders_of_reply result ≡ orders_when is_due (Answer x ∷ GiveCase x ∷ []) }
{
    let answer = Say {
        kind: Kind::Reply,
        x,
    };
    let case = Say {
        kind: Kind::Case,
        x,
    };
    if is_due {
        Says::Two(answer, case)
    } else {
        Says::Nothing
    }
}

/// The replies in this round to a datagram of a push that is admitted now or is a repeat.
pub fn replies(session: &Session, round: u32, view: &View<'_>, place: Place, is_new: bool) -> Says
    requires place { StandsAt view.now (Some place) }
    requires kind { place.x.kind ≡ Push }
    ensures orders { (me : Member) (k : Knowledge) → me.session ≡ session.now → round ≡ this_round k
        → orders_of_reply result ≡ reply_orders me k is_new (datagram session.now.shape view.now) }
    ensures fitting { AreFitting result }
{
    let life = session.shape().life;
    let x = place.x;
    match view.body {
        Body::Query { .. } => to_query(is_new || is_within(round, x.round, REQUEST_DEADLINE), x),
        Body::Reply { .. } => Says::one_when(is_new, Kind::Case, x),
        Body::Case { .. } => Says::one_when(is_new, Kind::KeyReq, x),
        Body::KeyReq { .. } => Says::one_when(
            is_new || is_within(round, x.round, life),
            Kind::Key,
            x,
        ),
        _ => Says::Nothing,
    }
}
