//! The first entry of some bytes.
ghost use Rattle.std.specs.Prelude.{◌≡◌};
ghost use Rattle.bar_record.specs.Code.Items.{plain_first};
ghost use Rattle.bar_record.specs.Recording.{datagram_first, first_of, sized_first};

use bar_bytes::split_u16;
use bar_wire::{Input, LARGEST_DATAGRAM};

/// What some bytes begin with: nothing if there are none, the end, an entry, or no entry. After an end or an entry: what follows it.
#[derive(Clone, Copy)]
pub enum First<'a> {
    NoByte,
    End(&'a [u8]),
    Entry(Input<'a>, &'a [u8]),
    NoEntry,
}

/// A datagram of this length, and what follows it.
fn datagram_first(len: u16, rest: &[u8]) -> First<'_>
    ensures { plain_first result ≡ datagram_first len rest.now }
{
    if len > LARGEST_DATAGRAM {
        return First::NoEntry;
    }
    let len = usize::from(len);
    if len > rest.len() {
        return First::NoEntry;
    }
    let (bytes, rest) = rest.split_at(len);
    First::Entry(Input::Datagram(bytes), rest)
}

/// What follows the mark of a datagram.
fn sized_first(rest: &[u8]) -> First<'_>
    ensures { plain_first result ≡ sized_first rest.now }
{
    if rest.len() < 2 {
        return First::NoEntry;
    }
    let (len, bytes) = split_u16(rest);
    datagram_first(len, bytes)
}

/// The first entry of some bytes.
#[tactic(auto, unfolding(crate::specs::Recording::first_of))]
pub fn first_of(bytes: &[u8]) -> First<'_>
    ensures { plain_first result ≡ first_of bytes.now }
{
    let Some((mark, rest)) = bytes.split_first() else {
        return First::NoByte;
    };
    match *mark {
        0 => First::End(rest),
        1 => First::Entry(Input::Tick, rest),
        2 => sized_first(rest),
        _ => First::NoEntry,
    }
}
