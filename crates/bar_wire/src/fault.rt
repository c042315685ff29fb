use thiserror::Error;

/// The fault of the bytes of a datagram: the first of these that applies, in this order. Each is displayed as its name.
#[derive(Clone, Copy, Debug, PartialEq, Eq, Error)]
pub enum WireFault {
    /// There are fewer than 16 bytes.
    #[error("Short")]
    Short,
    /// The first two bytes aren't the magic.
    #[error("BadMagic")]
    BadMagic,
    /// The version isn't the session's.
    #[error("BadVersion")]
    BadVersion,
    /// The kind isn't 1 to 12.
    #[error("BadKind")]
    BadKind,
    /// The session id isn't the session's.
    #[error("BadSession")]
    BadSession,
    /// The number of bytes isn't the one that the kind and its raw counts give, or a count or length is missing.
    #[error("BadLength")]
    BadLength,
    /// A field is out of its range.
    #[error("BadField")]
    BadField,
}
