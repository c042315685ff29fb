//! Writing a recording.
ghost use Rattle.std.specs.Prelude.{◌≡◌, ◌≤◌, length, take};
ghost use Rattle.bar_wire.specs.Inputs.{plain_input};
ghost use Rattle.bar_record.specs.Recording.{entry_bytes, IsInRange};

use bar_bytes::{put, put_u8, put_u16};
use bar_wire::{Input, LARGEST_DATAGRAM};

/// The most bytes of an entry: its mark, the length of a datagram, and the datagram.
pub const LARGEST_ENTRY: usize = 3 + LARGEST_DATAGRAM as usize;

/// Writes the entry of an input at the start of `out`, and returns how many bytes it has: one for a tick, and three more than a datagram
/// has. A datagram must have at most 65,507 bytes.
pub fn entry(input: &Input<'_>, out: &mut [u8]) -> usize
    requires range { IsInRange (plain_input input.now) }
    requires room { length (entry_bytes (plain_input input.now)) ≤ length out.old }
    ensures written { take result out.new ≡ entry_bytes (plain_input input.now) }
    ensures end { result ≡ length (entry_bytes (plain_input input.now)) }
{
    match input {
        Input::Tick => put_u8(out, 0, 1),
        Input::Datagram(bytes) => {
            let at = put_u8(out, 0, 2);
            let at = put_u16(out, at, bytes.len() as u16);
            put(out, at, bytes)
        }
    }
}
