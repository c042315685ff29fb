//! The kinds of bodies that peers sign.
ghost use Rattle.std.specs.Prelude.{◌≡◌};
ghost use Rattle.bar_wire.specs.Bodies.{is_peer_kind};
ghost use Rattle.bar_wire.specs.Code.Views.{plain};

use crate::view::Body;

/// Whether a body is of a kind that peers sign.
pub fn is_peer_kind(body: &Body<'_>) -> bool
    ensures { result ≡ is_peer_kind (plain body.now) }
{
    matches!(
        body,
        Body::Request { .. }
            | Body::Response { .. }
            | Body::Query { .. }
            | Body::Reply { .. }
            | Body::Case { .. }
            | Body::Key { .. }
    )
}
