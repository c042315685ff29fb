//! The key of a KEY.
ghost use Rattle.std.specs.Prelude.{◌≡◌, option_map};
ghost use Rattle.bar_wire.specs.Bodies.{key_in};
ghost use Rattle.bar_wire.specs.Code.Views.{plain};
ghost use Rattle.bar_judge.specs.Code.Parts.{plain_key};

use bar_window::{Role, XKind};
use bar_wire::{Body, View};

/// The fields of a KEY: the round, kind and side of its exchange, and the key.
#[derive(Clone, Copy, Debug)]
pub(crate) struct GivenKey<'a> {
    pub round: u32,
    pub kind: XKind,
    pub role: Role,
    pub key: &'a [u8; 32],
}

/// The key of a KEY; `None` for other kinds.
pub(crate) fn key_of<'a>(view: &View<'a>) -> Option<GivenKey<'a>>
    ensures { option_map plain_key result ≡ key_in (plain view.now.body) }
{
    match view.body {
        Body::Key {
            round,
            xkind,
            role,
            key,
        } => Some(GivenKey {
            round,
            kind: xkind,
            role,
            key,
        }),
        _ => None,
    }
}
