//! Room for bytes, whose memory is allocated when it is made.

use std::alloc::{AllocError, Global};
use std::marker::Model;

/// A room for one string of bytes of at most a certain size.
#[derive(Debug, Drop)]
pub struct Room {
    bytes: Vec<u8>,
    size: usize,
    is_kept: bool,
}

impl Model for Room {
    ghost use Rattle.std.specs.Prelude.{◌≤◌, vec_capacity};
    ghost use Rattle.bar_bytes.specs.Code.Room.{RoomFor, if_kept};

    ghost Value = { RoomFor };

    ghost view = { λ r. record { size = r.size; kept = if_kept r.is_kept r.bytes.items } };

    ghost invariant = { λ r. r.size ≤ vec_capacity r.bytes };
}

impl Room {
    ghost use Rattle.std.specs.Prelude.{◌≡◌, ◌+◌, ◌≤◌, ◌++◌, length, Some, None, IfOk, IfSome, option_copied, option_map};

    /// An empty room for strings of at most `size` bytes.
    pub fn make(alloc: Global, size: usize) -> Result<Room, AllocError>
        ensures { IfOk result (λ r. r ≡ record { size = size; kept = None }) }
    {
        let bytes = Vec::with_capacity(alloc, size)?;
        Ok(Room {
            bytes,
            size,
            is_kept: false,
        })
    }

    /// Keeps some bytes, in place of those that were kept.
    pub fn keep(&mut self, bytes: &[u8])
        requires { length bytes.now ≤ self.old.size }
        ensures { self.new ≡ record { size = self.old.size; kept = Some bytes.now } }
    {
        self.bytes.clear();
        let Ok(()) = self.bytes.extend_from_slice(bytes) else {
            unreachable!()
        };
        self.is_kept = true;
    }

    /// Appends bytes to those that are kept. If none are kept, it does nothing.
    pub fn add(&mut self, bytes: &[u8])
        requires { IfSome self.old.kept (λ kept. length kept + length bytes.now ≤ self.old.size) }
        ensures { self.new ≡ record { size = self.old.size; kept = option_map (λ kept. kept ++ bytes.now) self.old.kept } }
    {
        if self.is_kept {
            let Ok(()) = self.bytes.extend_from_slice(bytes) else {
                unreachable!()
            };
        }
    }

    /// Keeps nothing.
    pub fn empty(&mut self)
        ensures { self.new ≡ record { size = self.old.size; kept = None } }
    {
        self.is_kept = false;
    }

    /// The bytes that are kept, or `None` if none are.
    pub fn kept(&self) -> Option<&[u8]>
        ensures { option_copied result ≡ self.now.kept }
    {
        if self.is_kept {
            Some(self.bytes.as_slice())
        } else {
            None
        }
    }
}
