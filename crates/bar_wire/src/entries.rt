ghost use Rattle.std.specs.Prelude.{◌≡◌, ◌*◌, ◌<◌, ◌↔◌, IsTrue, length};
ghost use Rattle.std.specs.List.{AllByRecursion};
ghost use Rattle.bar_wire.specs.Grammar.{RisesTo, IsEntryInRange, AreDatagramsInRange, ArePartiesInRange};
ghost use Rattle.bar_wire.specs.Places.{entries, entries_len, pairs};

use crate::limits::LARGEST_DATAGRAM;
use bar_bytes::split_u16;

/// Whether the bytes are `count` lengths, each followed by that many bytes.
pub(crate) fn has_entries(count: u8, bytes: &[u8]) -> bool
    ensures { IsTrue result ↔ (length bytes.now ≡ entries_len count bytes.now) }
{
    let mut rest = bytes;
    for _ in 0..count {
        if rest.len() < 2 {
            return false;
        }
        let (len, after) = split_u16(rest);
        let len = usize::from(len);
        if after.len() < len {
            return false;
        }
        let (_, next) = after.split_at(len);
        rest = next;
    }
    rest.is_empty()
}

/// Whether the length of each entry is in range.
fn has_lengths(count: u8, bytes: &[u8]) -> bool
    requires { length bytes.now ≡ entries_len count bytes.now }
    ensures { IsTrue result ↔ AllByRecursion IsEntryInRange (entries count bytes.now) }
{
    let mut rest = bytes;
    for _ in 0..count {
        let (len, after) = split_u16(rest);
        if len == 0 || len > LARGEST_DATAGRAM {
            return false;
        }
        let (_, next) = after.split_at(usize::from(len));
        rest = next;
    }
    true
}

/// Whether the parties are peers in strictly increasing order.
fn rises_to(peers: u16, count: u8, parties: &[u8]) -> bool
    requires { length parties.now ≡ 2 * count }
    ensures { IsTrue result ↔ RisesTo peers 0 (pairs parties.now) }
{
    let mut rest = parties;
    let mut last = 0;
    for _ in 0..count {
        let (party, after) = split_u16(rest);
        if party <= last || party > peers {
            return false;
        }
        last = party;
        rest = after;
    }
    true
}

/// Whether there are one or two datagrams, each of a length in range.
pub(crate) fn are_datagrams_in_range(count: u8, bytes: &[u8]) -> bool
    requires { length bytes.now ≡ entries_len count bytes.now }
    ensures { IsTrue result ↔ AreDatagramsInRange (entries count bytes.now) }
{
    if count == 0 || count > 2 {
        return false;
    }
    has_lengths(count, bytes)
}

/// Whether there is at least one party, and they are peers in strictly increasing order.
pub(crate) fn are_parties_in_range(peers: u16, count: u8, parties: &[u8]) -> bool
    requires { length parties.now ≡ 2 * count }
    ensures { IsTrue result ↔ ArePartiesInRange peers (pairs parties.now) }
{
    if count == 0 || u16::from(count) > peers {
        return false;
    }
    rises_to(peers, count, parties)
}
