//! The messages of exchanges that don't depend on terms, and how messages are written.
ghost use Rattle.std.specs.Prelude.{◌≡◌, ◌≤◌, ◌+◌, length, take, Some};
ghost use Rattle.bar_wire.specs.Limits.{header_len, largest_datagram};
ghost use Rattle.bar_wire.specs.Code.Views.{plain, IsBody};
ghost use Rattle.bar_wire.specs.Code.Writing.{body_written};
ghost use Rattle.bar_wire.specs.declared.kind.Kind.TheVariants as kinds;
ghost use Rattle.bar_rules.specs.Member.{Member};
ghost use Rattle.bar_rules.specs.Peer.Knowledge.{Knowledge};
ghost use Rattle.bar_rules.specs.Peer.Writing.{body_now};
ghost use Rattle.bar_exchange.specs.Code.Writing.{AreSourcesOf, IsWritten, LeavesRest, bytes_to, largest_message};

use crate::sources::Sources;
use bar_window::Exchange;
use bar_wire::{Body, encode};

/// Writes the message of a body from this peer to its partner in an exchange, without the signature, to the start of `out`, and returns its
/// length.
pub fn write_message(sources: &Sources<'_>, x: Exchange, body: &Body<'_>, out: &mut [u8]) -> usize
    requires body { IsBody sources.now.session.now.shape body.now }
    requires short { header_len + body_written sources.now.session.now.shape body.now ≤ largest_message }
    requires room { largest_datagram ≤ length out.old }
    ensures written { (me : Member) (k : Knowledge) → AreSourcesOf me k sources.now → take result out.new ≡ bytes_to me x (plain body.now) }
    ensures front { LeavesRest out.old (Some result) out.new }
{
    let shape = sources.session.shape();
    let role = sources.ledger.side(x);
    encode(
        sources.ledger.me(),
        x.party(role.other()),
        body,
        &shape,
        out,
    )
}

/// Writes the message that asks for the key of the other side's briefcase, and returns its length.
pub fn write_key_request(sources: &Sources<'_>, x: Exchange, out: &mut [u8]) -> usize
    requires room { largest_datagram ≤ length out.old }
    ensures written { (me : Member) (k : Knowledge) → AreSourcesOf me k sources.now
        → IsWritten me x (body_now me k kinds.KeyReq x) (Some result) out.new }
    ensures front { LeavesRest out.old (Some result) out.new }
{
    let role = sources.ledger.side(x);
    let body = Body::KeyReq {
        round: x.round,
        xkind: x.kind,
        role,
    };
    write_message(sources, x, &body, out)
}

/// Writes the message that gives the key of this side's briefcase, and returns its length.
pub fn write_key(sources: &Sources<'_>, x: Exchange, out: &mut [u8]) -> usize
    requires room { largest_datagram ≤ length out.old }
    ensures written { (me : Member) (k : Knowledge) → AreSourcesOf me k sources.now
        → IsWritten me x (body_now me k kinds.Key x) (Some result) out.new }
    ensures front { LeavesRest out.old (Some result) out.new }
{
    let role = sources.ledger.side(x);
    let key = sources.secrets.key(x, role);
    let body = Body::Key {
        round: x.round,
        xkind: x.kind,
        role,
        key: &key,
    };
    write_message(sources, x, &body, out)
}
