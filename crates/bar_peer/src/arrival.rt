ghost use Rattle.bar_exchange.specs.Code.Placing.{StandsAt};

use bar_wire::{Place, View};

/// A datagram that was received and decoded: its bytes, its view, and its exchange and side if it belongs to an exchange.
#[derive(Clone, Copy, Debug)]
pub struct Arrival<'a> {
    pub bytes: &'a [u8],
    pub view: View<'a>,
    pub place: Option<Place>,
    ghost placed: { StandsAt view place },
}
