//! A sink to which bytes are written.

/// Why a write failed.
#[derive(Clone, Copy, Debug, PartialEq, Eq)]
pub enum SinkFault {
    /// The sink refused the write. The fault count rose.
    Failed,
    NoMemory,
}

/// A sink of bytes. `stream` represents what it holds.
pub trait Sink {
    ghost use Rattle.bar_outside.specs.Stream.{Stream, Writes};

    ghost stream: { Self → Stream };

    /// Appends the bytes. After a fault a prefix of them may have been appended.
    fn write(&mut self, bytes: &[u8]) -> Result<(), SinkFault>
        ensures { Writes bytes.now (stream self.old) (stream self.new) result };
}
