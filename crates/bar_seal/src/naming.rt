//! The identity of a datagram.

ghost use Rattle.std.specs.Prelude.{◌≡◌, ◌↔◌, false, IsNone};
ghost use Rattle.bar_wire.specs.Datagram.{is_signed};
ghost use Rattle.bar_wire.specs.Code.Views.{plain};
ghost use Rattle.bar_seal.specs.Identities.{identity_by};

use crate::identities::Identity;
use bar_wire::{Body, Kind, View};

/// The identity of a signed datagram, or `None` for a kind that isn't signed.
pub fn identity(view: &View<'_>) -> Option<Identity>
    ensures identity { result ≡ identity_by (plain view.now.body) view.now.from view.now.to }
    ensures unsigned { IsNone result ↔ (is_signed (plain view.now.body) ≡ false) }
{
    let from = view.from;
    let to = view.to;
    match view.body {
        Body::Manifest { round, .. } => Some(Identity::of_round(Kind::Manifest, round)),
        Body::Evict { round, .. } => Some(Identity::of_round(Kind::Evict, round)),
        Body::Request { round, .. } => Some(Identity {
            from,
            ..Identity::of_round(Kind::Request, round)
        }),
        Body::Query { round, .. } => Some(Identity {
            from,
            ..Identity::of_round(Kind::Query, round)
        }),
        Body::Response { round, .. } => Some(Identity {
            from,
            to,
            ..Identity::of_round(Kind::Response, round)
        }),
        Body::Reply { round, .. } => Some(Identity {
            from,
            to,
            ..Identity::of_round(Kind::Reply, round)
        }),
        Body::Case {
            round,
            xkind,
            role,
            ..
        } => Some(Identity {
            from,
            to,
            xkind: xkind.code(),
            role: role.code(),
            ..Identity::of_round(Kind::Case, round)
        }),
        Body::Key {
            round,
            xkind,
            role,
            ..
        } => Some(Identity {
            from,
            to,
            xkind: xkind.code(),
            role: role.code(),
            ..Identity::of_round(Kind::Key, round)
        }),
        // The other kinds are never signed.
        _ => None,
    }
}
