use bar_roster::{KeyFileFault, SessionFault};

/// How a command ends if no fault stops it.
#[derive(Debug, PartialEq, Eq, Drop)]
pub enum Ended {
    /// The run completed.
    Done,
    SessionRefused(SessionFault),
    KeyRefused(KeyFileFault),
    /// The stream has `have` bytes, and the session has room for only `room`.
    StreamRefused { have: u64, room: u64 },
}
