//! The faults that can stop a command.
use crate::{FileFault, LinkFault, SinkFault};
use std::alloc::AllocError;

/// Why a command stopped.
#[derive(Clone, Copy, Debug, PartialEq, Eq)]
pub enum Fault {
    /// A call of the files failed.
    File,
    /// A call of the link failed.
    Link,
    /// A write to the output failed.
    Output,
    NoMemory,
}

impl From<FileFault> for Fault {
    ghost use Rattle.std.specs.Prelude.{◌≡◌};
    ghost use Rattle.bar_outside.specs.Code.Faults.{fault_of_file};

    ghost from_gives = { λ cause fault. fault ≡ fault_of_file cause };

    fn from(cause: FileFault) -> Self {
        match cause {
            FileFault::Failed => Fault::File,
            FileFault::NoMemory => Fault::NoMemory,
        }
    }
}

impl From<LinkFault> for Fault {
    ghost use Rattle.std.specs.Prelude.{◌≡◌};
    ghost use Rattle.bar_outside.specs.Code.Faults.{fault_of_link};

    ghost from_gives = { λ cause fault. fault ≡ fault_of_link cause };

    fn from(cause: LinkFault) -> Self {
        match cause {
            LinkFault::Failed => Fault::Link,
            LinkFault::NoMemory => Fault::NoMemory,
        }
    }
}

impl From<SinkFault> for Fault {
    ghost use Rattle.std.specs.Prelude.{◌≡◌};
    ghost use Rattle.bar_outside.specs.Code.Faults.{fault_of_sink};

    ghost from_gives = { λ cause fault. fault ≡ fault_of_sink cause };

    fn from(cause: SinkFault) -> Self {
        match cause {
            SinkFault::Failed => Fault::Output,
            SinkFault::NoMemory => Fault::NoMemory,
        }
    }
}

impl From<AllocError> for Fault {
    ghost use Rattle.std.specs.Prelude.{◌≡◌};
    ghost use Rattle.bar_outside.specs.declared.fault.Fault.TheVariants.{NoMemory};

    ghost from_gives = { λ _ fault. fault ≡ NoMemory };

    fn from(_: AllocError) -> Self {
        Fault::NoMemory
    }
}
