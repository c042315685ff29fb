//! The place of a datagram of an exchange: the exchange, and the side of its sender.
ghost use Rattle.std.specs.Prelude.{◌≡◌, option_map};
ghost use Rattle.bar_wire.specs.Datagram.{exchange_by, part_of, place_of};
ghost use Rattle.bar_wire.specs.Code.Views.{datagram, plain};
ghost use Rattle.bar_wire.specs.declared.shape.Shape.{Shape};
ghost use Rattle.bar_wire.specs.Code.Sides.{place_in};

use crate::view::{Body, View};
use bar_window::{Exchange, Role, XKind};

/// An exchange, and the side of it that a datagram's sender is on.
#[derive(Clone, Copy, Debug)]
pub struct Place {
    pub x: Exchange,
    pub role: Role,
}

/// The exchange of a datagram from a party on one side to the other.
pub fn exchange_by(round: u32, kind: XKind, role: Role, from: u16, to: u16) -> Exchange
    ensures { result ≡ exchange_by round kind role from to }
{
    let (initiator, responder) = match role {
        Role::Initiator => (from, to),
        Role::Responder => (to, from),
    };
    Exchange {
        round,
        kind,
        initiator,
        responder,
    }
}

/// The round, kind of exchange and sender's side of a body that belongs to an exchange.
fn part_of(body: &Body<'_>) -> Option<(u32, XKind, Role)>
    ensures { result ≡ part_of (plain body.now) }
{
    match *body {
        Body::Request { round, .. } | Body::Divulge { round, .. } => {
            Some((round, XKind::Balanced, Role::Initiator))
        }
        Body::Response { round, .. } => Some((round, XKind::Balanced, Role::Responder)),
        Body::Query { round, .. } => Some((round, XKind::Push, Role::Initiator)),
        Body::Reply { round, .. } => Some((round, XKind::Push, Role::Responder)),
        Body::Case {
            round,
            xkind,
            role,
            ..
        }
        | Body::KeyReq { round, xkind, role }
        | Body::Key {
            round,
            xkind,
            role,
            ..
        } => Some((round, xkind, role)),
        Body::Manifest { .. } | Body::Block { .. } | Body::Evidence { .. } | Body::Evict { .. } => {
            None
        }
    }
}

/// The place of a datagram of an exchange.
pub fn place_of(view: &View<'_>) -> Option<Place>
    ensures { (shape : Shape) → option_map place_in result ≡ place_of (datagram shape view.now).message }
{
    let (round, kind, role) = part_of(&view.body)?;
    Some(Place {
        x: exchange_by(round, kind, role, view.from, view.to),
        role,
    })
}
