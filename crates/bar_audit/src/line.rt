//! What an auditor reports of an exchange.

use bar_window::Exchange;

/// What an auditor reports of an exchange, by role, the initiator's first: how many items each side's CASE promises, 0 if none was
/// received, and whether each side's KEY was received.
#[derive(Clone, Copy, Debug, PartialEq, Eq)]
pub struct Line {
    pub x: Exchange,
    pub cases: [u8; 2],
    pub keys: [bool; 2],
}
