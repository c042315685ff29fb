use crate::say::Say;
use bar_window::Exchange;
use bar_wire::Kind;

/// The messages to be said for one datagram or tick, in order.
#[derive(Clone, Copy, Debug, PartialEq, Eq)]
pub enum Says {
    Nothing,
    One(Say),
    Two(Say, Say),
}

impl Says {
    ghost use Rattle.std.specs.Prelude.{◌≡◌, [], ◌∷◌};
    ghost use Rattle.bar_rules.specs.Peer.Replies.{orders_when};
    ghost use Rattle.bar_exchange.specs.Code.Says.{order_by, orders_of_reply, Fits, AreFitting};

    /// One message to be said if it is due, else none.
    pub fn one_when(is_due: bool, kind: Kind, x: Exchange) -> Says
        ensures orders { orders_of_reply result ≡ orders_when is_due (order_by kind x ∷ []) }
        ensures fitting { Fits kind x.kind → AreFitting result }
    {
        if is_due {
            Says::One(Say { kind, x })
        } else {
            Says::Nothing
        }
    }
}
