//! Why nothing is packed.

ghost use Rattle.std.specs.Prelude.{◌≡◌};

use bar_judge::{TableFault, Why};
use std::alloc::AllocError;

/// Why evidence is not packed: the first cause in this order.
#[derive(Clone, Copy, Debug, PartialEq, Eq)]
pub enum PackFault {
    /// The table file's first bad entry is at this place, counted from 0.
    Table { at: u64 },
    /// The evidence isn't one or two datagrams.
    Evidence,
    /// The evidence shows no fault under the table, for this reason.
    NotShown(Why),
    /// Memory was refused.
    NoMemory,
}

impl From<AllocError> for PackFault {
    ghost use Rattle.bar_proof.specs.declared.pack_fault.PackFault.TheVariants.{NoMemory};

    ghost from_gives = { λ _ e. e ≡ NoMemory };

    fn from(_: AllocError) -> Self {
        PackFault::NoMemory
    }
}

impl From<TableFault> for PackFault {
    ghost use Rattle.bar_proof.specs.Packing.{fault_of_table};

    ghost from_gives = { λ fault e. e ≡ fault_of_table fault };

    fn from(fault: TableFault) -> Self {
        match fault {
            TableFault::BadEntry { at } => PackFault::Table { at },
            TableFault::NoMemory => PackFault::NoMemory,
        }
    }
}
