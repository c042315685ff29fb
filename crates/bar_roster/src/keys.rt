//! The public keys of a session.
ghost use Rattle.std.specs.Prelude.{◌≡◌, ◌<◌, ◌≤◌, IfOk, Some, slice_get, length};
ghost use Rattle.bar_roster.specs.Held.{rows_of};

use std::alloc::{AllocError, Global};

/// The public keys of the parties, the broadcaster's first: of one level, or of two.
#[derive(Debug, Drop)]
pub enum Keys {
    Single(Vec<[u8; 56]>),
    Double(Vec<[u8; 60]>),
}

/// A public key as bytes.
fn key_bytes<const N: usize>(key: &[u8; N]) -> &[u8]
    ensures value { result.now ≡ key.now }
    ensures long { length result.now ≡ N }
{
    key.as_slice()
}

impl Keys {
    /// The key of a party.
    pub fn get(&self, party: usize) -> &[u8]
        requires { party < length (rows_of self.now) }
        ensures value { slice_get (rows_of self.now) party ≡ Some result.now }
        ensures short { length result.now ≤ 60 }
    {
        match self {
            Keys::Single(keys) => key_bytes(&keys[party]),
            Keys::Double(keys) => key_bytes(&keys[party]),
        }
    }

    /// A copy of the keys.
    pub fn copied(&self, alloc: Global) -> Result<Keys, AllocError>
        ensures { IfOk result (λ k. rows_of k ≡ rows_of self.now) }
    {
        match self {
            Keys::Single(keys) => {
                let mut copy = vec![in alloc; [0u8; 56]; keys.len()]?;
                copy.copy_from_slice(keys);
                Ok(Keys::Single(copy))
            }
            Keys::Double(keys) => {
                let mut copy = vec![in alloc; [0u8; 60]; keys.len()]?;
                copy.copy_from_slice(keys);
                Ok(Keys::Double(copy))
            }
        }
    }
}
