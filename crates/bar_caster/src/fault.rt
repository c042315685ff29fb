//! Why a broadcaster isn't started.
ghost use Rattle.std.specs.Prelude.{◌≡◌};

use std::alloc::AllocError;

/// Why a broadcaster isn't started.
#[derive(Debug, PartialEq, Eq, Drop)]
pub enum CasterFault {
    /// The stream has more bytes than the session has room for.
    TooLong { have: u64, room: u64 },
    /// Memory allocation failed.
    NoMemory,
}

impl From<AllocError> for CasterFault {
    ghost use Rattle.bar_caster.specs.declared.fault.CasterFault.TheVariants.{NoMemory};

    ghost from_gives = { λ _ e. e ≡ NoMemory };

    fn from(_: AllocError) -> Self {
        CasterFault::NoMemory
    }
}
