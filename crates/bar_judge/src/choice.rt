//! The choice of a partner by a REQUEST or a QUERY.
ghost use Rattle.std.specs.Prelude.{◌≡◌, option_map};
ghost use Rattle.bar_wire.specs.Bodies.{choice_in};
ghost use Rattle.bar_wire.specs.Code.Views.{plain};
ghost use Rattle.bar_judge.specs.Code.Parts.{plain_choice};

use bar_window::XKind;
use bar_wire::{Body, View};

/// For which kind of exchange and round a partner is chosen, and by which seed.
#[derive(Clone, Copy, Debug)]
pub(crate) struct Choice<'a> {
    pub kind: XKind,
    pub round: u32,
    pub seed: &'a [u8; 32],
}

/// The choice of a partner that a REQUEST or a QUERY states.
pub(crate) fn choice_of<'a>(view: &View<'a>) -> Option<Choice<'a>>
    ensures { option_map plain_choice result ≡ choice_in (plain view.now.body) }
{
    match view.body {
        Body::Request { round, seed, .. } => Some(Choice {
            kind: XKind::Balanced,
            round,
            seed,
        }),
        Body::Query { round, seed, .. } => Some(Choice {
            kind: XKind::Push,
            round,
            seed,
        }),
        _ => None,
    }
}
