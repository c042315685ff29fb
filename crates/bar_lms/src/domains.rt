//! The numbers that separate hashes for different purposes (RFC 8554, 7.1).

/// A one-time public key.
pub(crate) const D_PBLC: u16 = 0x8080;

/// A message.
pub(crate) const D_MESG: u16 = 0x8181;

/// A leaf of the tree.
pub(crate) const D_LEAF: u16 = 0x8282;

/// An interior node of the tree.
pub(crate) const D_INTR: u16 = 0x8383;
