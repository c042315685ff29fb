//! The sessions of a broadcaster and two peers, of both versions and with keys of one level and of two.
use bar_samples::sessions::{session_of_one_level, session_of_two_levels};
use std::alloc::{AllocError, Global};

/// The text of a session of a version, 1 or 2.
pub fn text_of(alloc: Global, version: u8, has_two_levels: bool) -> Result<String, AllocError> {
    let text = if has_two_levels {
        session_of_two_levels()
    } else {
        session_of_one_level()
    };
    match version {
        2 => text.replace(alloc, "version = 1", "version = 2"),
        _ => String::from_str(alloc, text),
    }
}
