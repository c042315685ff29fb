//! The broadcaster's messages that are sent to all peers.
ghost use Rattle.std.specs.Prelude.{◌≡◌, ◌+◌, ◌*◌, ◌≤◌, ℕ, List, length, take};
ghost use Rattle.std.specs.List.{concat, flat_map};
ghost use Rattle.bar_bytes.specs.Bytes.{u16_bytes};
ghost use Rattle.bar_wire.specs.Datagram.{Manifest, Evict};
ghost use Rattle.bar_wire.specs.Limits.{header_len, largest_datagram};
ghost use Rattle.bar_wire.specs.Code.Views.{plain, IsBody};
ghost use Rattle.bar_wire.specs.Code.Writing.{body_written};
ghost use Rattle.bar_rules.specs.Values.{message_bytes};
ghost use Rattle.bar_rules.specs.Broadcaster.Sending.{caster_message};

use bar_bytes::put_u16;
use bar_roster::Session;
use bar_wire::{BROADCASTER, Body, EVERYONE, encode};

/// Writes the message of a body to all peers, without the signature, to the start of `out`, and returns its length.
fn write_to_all(session: &Session, body: &Body<'_>, out: &mut [u8]) -> usize
    requires body { IsBody session.now.shape body.now }
    requires short { header_len + body_written session.now.shape body.now ≤ largest_datagram }
    requires room { largest_datagram ≤ length out.old }
    ensures written { take result out.new ≡ message_bytes session.now (caster_message (plain body.now)) }
    ensures end { result ≡ header_len + body_written session.now.shape body.now }
{
    let shape = session.shape();
    encode(BROADCASTER, EVERYONE, body, &shape, out)
}

/// Writes the message of a round's MANIFEST to the start of `out`, and returns its length. It has `count` digests of 32 bytes each.
pub fn write_manifest(
    session: &Session,
    round: u32,
    digests: &[u8],
    count: u8,
    out: &mut [u8],
) -> usize
    requires whole { length digests.now ≡ 32 * count }
    requires room { largest_datagram ≤ length out.old }
    ensures written { (list : List (List ℕ)) → count ≡ length list → digests.now ≡ concat list →
        take result out.new ≡ message_bytes session.now (caster_message (Manifest round list)) }
    ensures end { result ≡ 21 + 32 * count }
{
    let body = Body::Manifest {
        round,
        count,
        digests,
    };
    write_to_all(session, &body, out)
}

/// Writes the message of a round's EVICT to the start of `out`, and returns its length. `parties` contains `count` parties of two bytes
/// each.
pub fn write_evictions(
    session: &Session,
    round: u32,
    parties: &[u8],
    count: u8,
    out: &mut [u8],
) -> usize
    requires whole { length parties.now ≡ 2 * count }
    requires room { largest_datagram ≤ length out.old }
    ensures written { (evicted : List ℕ) → parties.now ≡ flat_map u16_bytes evicted →
        take result out.new ≡ message_bytes session.now (caster_message (Evict round evicted)) }
    ensures end { result ≡ 21 + 2 * count }
{
    let body = Body::Evict {
        round,
        count,
        parties,
    };
    write_to_all(session, &body, out)
}

/// Writes parties, of two bytes each, to the start of `out`, and returns the length of all.
pub fn write_parties(parties: &[u16], out: &mut [u8]) -> usize
    requires { 2 * length parties.now ≤ length out.old }
    ensures written { take result out.new ≡ flat_map u16_bytes parties.now }
    ensures end { result ≡ 2 * length parties.now }
{
    let mut at = 0;
    for party in parties {
        at = put_u16(out, at, *party);
    }
    at
}
