use crate::window::Window;

/// The terms of an exchange. All windows are of the exchange's round.
#[derive(Clone, Copy, Debug, PartialEq, Eq)]
pub enum Terms {
    /// The initiator's nonce, and the histories of the initiator and of the responder.
    Balanced {
        nonce: [u8; 32],
        ha: Window,
        hb: Window,
    },
    /// The young updates that the initiator offers and the aged ones that it asks for, which of them the responder wants and gives, and the
    /// number of junk items that the responder adds.
    Push {
        young: Window,
        aged: Window,
        want: Window,
        give: Window,
        junk: u8,
    },
}
