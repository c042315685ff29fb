//! Sessions, key files, signatures and signed datagrams for tests. The keys, anchors and signatures were made by a Python program written
//! from RFC 8554.
#![tactic(auto)]

pub mod keys;
pub mod sessions;
pub mod signatures;
pub mod signed;
