//! Showing datagrams in a transcript.
ghost use Rattle.std.specs.Prelude.{◌≡◌, IfOk, string_bytes};
ghost use Rattle.bar_outside.specs.Plan.{Outside, with_out};
ghost use Rattle.bar_outside.specs.Code.Follows.{Follows};
ghost use Rattle.bar_node.specs.Code.Turns.{line_of_bytes, shown_line};

use crate::outlet::Outlet;
use bar_outside::{Fault, Sink, show_bytes};
use std::alloc::{AllocError, Global};

/// The transcript line of a datagram that the input with this number sends to a receiver.
fn line_of(alloc: Global, number: u64, to: u16, datagram: &[u8]) -> Result<String, AllocError>
    ensures { IfOk result (λ line. string_bytes line ≡ line_of_bytes number to datagram.now) }
{
    let datagram = hex::encode(alloc, datagram)?;
    format!(in alloc; "{number} {to} {datagram}\n")
}

/// Shows the transcript line of a datagram that the input with this number sends to a receiver.
fn show_line<K: Sink>(
    alloc: Global,
    number: u64,
    to: u16,
    datagram: &[u8],
    out: &mut K,
) -> Result<(), Fault>
    ensures { (w : Outside) → Follows (shown_line number (to, datagram.now))
        (with_out w (K.stream out.old)) (with_out w (K.stream out.new)) result }
{
    let line = line_of(alloc, number, to, datagram)?;
    show_bytes(out, line.as_bytes())
}

/// An outlet that shows datagrams as the lines of a transcript.
#[derive(Clone, Copy)]
pub struct Showing {
    pub alloc: Global,
}

impl<K: Sink> Outlet<K> for Showing {
    ghost use Rattle.std.specs.Prelude.{refl};

    ghost placed = { λ w out. with_out w (K.stream out) };

    ghost given = { shown_line };

    fn give(&self, out: &mut K, number: u64, to: u16, datagram: &[u8]) -> Result<(), Fault> {
        show_line(self.alloc, number, to, datagram, out)
    }

    ghost apart = { λ w files out. refl };
}
