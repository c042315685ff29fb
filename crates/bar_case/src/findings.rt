//! The result of opening a briefcase with a key.

/// The result for an opened item: it is as promised, it is not, or the table lacks the round of the update.
#[derive(Clone, Copy, Debug, PartialEq, Eq)]
pub enum Finding {
    Sound,
    Broken,
    Untold,
}

/// The result of opening a briefcase with a key.
#[derive(Clone, Copy, Debug, PartialEq, Eq)]
pub enum Opening {
    /// Each item is as promised; the number is that of all items.
    Good(u8),
    /// This item is the first that is not as promised.
    Bad { item: u8 },
    /// No item is known to be wrong, and this one is the first whose round the table lacks.
    Unknown { item: u8 },
}

impl Opening {
    ghost use Rattle.std.specs.Prelude.{◌≡◌, ◌<◌};
    ghost use Rattle.bar_case.specs.Opened.{next_opening};

    /// The opening after the finding of the next item, which has this number.
    pub(crate) fn after(self, finding: Finding, item: u8) -> Opening
        requires { item < 255 }
        ensures { result ≡ next_opening self finding item }
    {
        match (self, finding) {
            (Opening::Bad { .. }, _) => self,
            (_, Finding::Broken) => Opening::Bad { item },
            (Opening::Unknown { .. }, _) => self,
            (Opening::Good(_), Finding::Untold) => Opening::Unknown { item },
            (Opening::Good(_), Finding::Sound) => Opening::Good(item + 1),
        }
    }
}
