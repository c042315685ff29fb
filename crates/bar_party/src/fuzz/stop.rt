//! Why the program stops early.

use std::alloc::{AllocError, AllocFailed};
use std::{fmt, io};

/// Why the program stops early.
#[derive(Debug, Drop)]
pub enum Stop {
    /// There is no memory left.
    NoMemory,
    /// A file or standard output failed.
    Failed(io::Error),
    /// A check failed, or a trial is impossible.
    Found(&'static str),
}

impl From<AllocError> for Stop {
    fn from(_: AllocError) -> Stop {
        Stop::NoMemory
    }
}

impl<T: Drop> From<AllocFailed<T>> for Stop {
    fn from(_: AllocFailed<T>) -> Stop {
        Stop::NoMemory
    }
}

impl From<io::Error> for Stop {
    fn from(error: io::Error) -> Stop {
        Stop::Failed(error)
    }
}

impl fmt::Display for Stop {
    fn fmt<W: fmt::Write>(&self, f: &mut fmt::Formatter<W>) -> fmt::Result {
        match self {
            Stop::NoMemory => f.write_str("no memory"),
            Stop::Failed(error) => write!(f, "{error}"),
            Stop::Found(told) => f.write_str(told),
        }
    }
}
