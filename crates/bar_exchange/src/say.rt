use bar_window::Exchange;
use bar_wire::Kind;

/// A message to be said in an exchange.
#[derive(Clone, Copy, Debug, PartialEq, Eq)]
pub struct Say {
    pub kind: Kind,
    pub x: Exchange,
}
