//! Files by name.
use std::alloc::{AllocError, AllocFailed};

/// The largest size of a file that can be read, in bytes.
pub const LARGEST_FILE: usize = 1_073_741_824;

/// Why a call of the files failed.
#[derive(Clone, Copy, Debug, PartialEq, Eq)]
pub enum FileFault {
    /// The file system refused the call. The fault count rose.
    Failed,
    NoMemory,
}

/// The kind of a call of the files.
#[derive(Clone, Copy, Debug, PartialEq, Eq)]
pub enum CallKind {
    Read,
    Create,
    Append,
}

impl From<AllocError> for FileFault {
    ghost use Rattle.std.specs.Prelude.{◌≡◌};
    ghost use Rattle.bar_outside.specs.declared.files.FileFault.TheVariants.{NoMemory};

    ghost from_gives = { λ _ fault. fault ≡ NoMemory };

    fn from(_: AllocError) -> Self {
        FileFault::NoMemory
    }
}

impl<T: Drop> From<AllocFailed<T>> for FileFault {
    ghost use Rattle.std.specs.Prelude.{◌≡◌};
    ghost use Rattle.bar_outside.specs.declared.files.FileFault.TheVariants.{NoMemory};

    ghost from_gives = { λ _ fault. fault ≡ NoMemory };

    fn from(_: AllocFailed<T>) -> Self {
        FileFault::NoMemory
    }
}

/// Files by name. Given some assumed initial content, `disk` represents what the files hold, and whether each read so far agrees with it.
pub trait Files {
    ghost use Rattle.bar_outside.specs.Disk.{Content, Disk, Reads, Creates, Appends};

    ghost disk: { Self → Content → Disk };

    /// Returns all bytes of a file. The result is `Failed` if the file doesn't exist or has more than `LARGEST_FILE` bytes.
    fn read(&mut self, path: &str) -> Result<Vec<u8>, FileFault>
        ensures { (was : Content) → Reads path.now (disk self.old was) (disk self.new was) result };

    /// Creates an empty file with this name. After a fault the file is unchanged or empty, and appending to it is allowed only if it was
    /// before.
    fn create(&mut self, path: &str) -> Result<(), FileFault>
        ensures { (was : Content) → Creates path.now (disk self.old was) (disk self.new was) result };

    /// Appends the bytes to a file that was created in this run; for any other file the result is `Failed`. After a fault a prefix of the
    /// bytes may have been appended.
    fn append(&mut self, path: &str, bytes: &[u8]) -> Result<(), FileFault>
        ensures { (was : Content) → Appends path.now bytes.now (disk self.old was) (disk self.new was) result };
}
