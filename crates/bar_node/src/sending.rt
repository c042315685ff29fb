//! Sending over a link.
use crate::outlet::Outlet;
use bar_outside::{Fault, Link, send_datagram};

/// An outlet that sends datagrams over a link.
#[derive(Clone, Copy)]
pub struct Sending;

impl<L: Link> Outlet<L> for Sending {
    ghost use Rattle.std.specs.Prelude.{refl};
    ghost use Rattle.bar_outside.specs.Plan.{with_wire};
    ghost use Rattle.bar_node.specs.Code.Turns.{sent};

    ghost placed = { λ w link. with_wire w (L.wire link) };

    ghost given = { sent };

    fn give(&self, link: &mut L, _number: u64, to: u16, datagram: &[u8]) -> Result<(), Fault> {
        send_datagram(link, to, datagram)
    }

    ghost apart = { λ w files link. refl };
}
