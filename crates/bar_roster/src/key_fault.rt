//! Why a key text is refused.

ghost use Rattle.std.specs.Prelude.{◌≡◌, Some};
ghost use Rattle.bar_roster.specs.KeyFaultText.{key_fault_text};

use std::alloc::AllocError;
use std::fmt;

/// The first fault of a key text.
#[derive(Debug, Clone, Copy, PartialEq, Eq)]
pub enum KeyFileFault {
    /// The bytes are not a TOML document.
    NotToml,
    /// A key is missing, or its value isn't of its kind or not in its range.
    BadValue,
    /// The session has other numbers, another public key or another anchor, or the party doesn't have the role that is asked for.
    NotInRoster,
    /// The key was used, and a fresh one is asked for.
    Spent,
    /// Memory was refused.
    NoMemory,
}

impl From<AllocError> for KeyFileFault {
    ghost use Rattle.bar_roster.specs.declared.key_fault.KeyFileFault.TheVariants.{NoMemory};

    ghost from_gives = { λ _ e. e ≡ NoMemory };

    fn from(_: AllocError) -> Self {
        KeyFileFault::NoMemory
    }
}

impl fmt::Display for KeyFileFault {
    ghost output = { λ e. Some (key_fault_text e) };

    fn fmt<W: fmt::Write>(&self, f: &mut fmt::Formatter<W>) -> fmt::Result {
        f.write_str(match self {
            KeyFileFault::NotToml => "NotToml",
            KeyFileFault::BadValue => "BadValue",
            KeyFileFault::NotInRoster => "NotInRoster",
            KeyFileFault::Spent => "Spent",
            KeyFileFault::NoMemory => "no memory",
        })
    }
}
