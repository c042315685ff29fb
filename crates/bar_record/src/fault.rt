//! Why bytes are not a recording.

use thiserror::Error;

/// The first fault of a recording, from the left.
#[derive(Debug, Clone, Copy, PartialEq, Eq, Error)]
pub enum RecordFault {
    /// The first 15 bytes aren't the head of this session and party.
    #[error("BadHead")]
    BadHead,
    /// At this place, counted from 0, is no entry: its mark isn't 0, 1 or 2, its length is above 65,507, or its bytes aren't all there.
    #[error("BadEntry")]
    BadEntry { at: u64 },
    /// The bytes end after an entry, without the end mark.
    #[error("NoEnd")]
    NoEnd,
    /// Bytes follow the end.
    #[error("AfterEnd")]
    AfterEnd,
    /// At this place, counted from 0, an entry other than the end follows the last tick. Ticks that pacing inserts count too.
    #[error("AfterLast")]
    AfterLast { at: u64 },
}
