//! Why bytes are no table file.

ghost use Rattle.std.specs.Prelude.{◌≡◌};

use std::alloc::{AllocError, AllocFailed};

/// The first fault of a table file.
#[derive(Debug, Clone, Copy, PartialEq, Eq)]
pub enum TableFault {
    /// The entry at this place, counted from 0, is cut, encodes no MANIFEST, has no accepted signature, or is of a round that isn't above
    /// the one before.
    BadEntry { at: u64 },
    /// Memory was refused.
    NoMemory,
}

impl<T: Drop> From<AllocFailed<T>> for TableFault {
    ghost use Rattle.bar_judge.specs.declared.table_fault.TableFault.TheVariants.{NoMemory};

    ghost from_gives = { λ _ e. e ≡ NoMemory };

    fn from(_: AllocFailed<T>) -> Self {
        TableFault::NoMemory
    }
}

impl From<AllocError> for TableFault {
    ghost use Rattle.bar_judge.specs.declared.table_fault.TableFault.TheVariants.{NoMemory};

    ghost from_gives = { λ _ e. e ≡ NoMemory };

    fn from(_: AllocError) -> Self {
        TableFault::NoMemory
    }
}
