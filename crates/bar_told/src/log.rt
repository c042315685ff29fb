//! A history that only proofs read. It takes no memory, and its calls do nothing when they run.
ghost use Rattle.std.specs.Prelude.{◌≡◌, List, [], ◌∷◌};
ghost use Rattle.std.specs.Borrow.{ftrue};
ghost use Rattle.bar_told.specs.Event.{Event};

use std::marker::Model;

/// What happened, newest first.
#[derive(Drop)]
pub struct Log {
    pub ghost events: { List Event },
}

impl Model for Log {
    ghost also_owns = { λ _. ftrue };
}

/// One call that an object of the system answered.
#[derive(Clone, Copy, Drop)]
pub enum Note<'a> {
    /// These bytes were written.
    Wrote(&'a [u8]),
    /// A link was bound to a party of a session with this port, the time of its first tick and the length of a tick.
    Bound(u16, u16, u64, u32),
    Ticked,
    /// A datagram arrived.
    Came(&'a [u8]),
    /// A datagram was sent to a party.
    Sent(u16, &'a [u8]),
    /// The child of this number was started with these arguments.
    Started(&'a [String], usize),
    /// A child ended with this status, or the wait for it was refused.
    Waited(usize, Option<i32>),
    /// A file held these bytes when it was read.
    Read(&'a str, &'a [u8]),
    /// An empty file was created.
    Made(&'a str),
    /// These bytes were appended to a file.
    Added(&'a str, &'a [u8]),
    /// A file could not be read.
    Unread(&'a str),
    /// A file could not be created.
    Unmade(&'a str),
    /// Not all bytes could be appended to a file.
    Unadded(&'a str),
}

impl Log {
    ghost use Rattle.bar_told.specs.Noted.{event_of};

    /// Nothing happened so far.
    pub fn new() -> Log
        ensures { result.events ≡ [] }
    {
        Log {}
    }

    /// The history with one more call.
    #[inline(always)]
    pub fn then(&self, _note: &Note<'_>) -> Log
        ensures { result.events ≡ event_of _note.now ∷ self.now.events }
    {
        Log {}
    }
}
