//! The leaf that signs a message.

ghost use Rattle.std.specs.Prelude.{◌≡◌, ◌*◌, ◌≤◌, ◌<◌, ◌^◌, true, Some};
ghost use Rattle.bar_wire.specs.Datagram.{Body as PlainBody, is_signed, round_of, kind_of, part_of};
ghost use Rattle.bar_wire.specs.Limits.{leaves_a_round, seats_a_round};
ghost use Rattle.bar_wire.specs.Code.Views.{plain};
ghost use Rattle.bar_seal.specs.Leaves.{leaf_of, first_slot, leaf_at, step_of};

use bar_window::{Exchange, Role, XKind};
use bar_wire::{Body, Kind, LEAVES_A_ROUND, SEATS_A_ROUND};

/// The steps of a side of an exchange: its first message, its briefcase and its key.
const FIRST: u32 = 0;

const CASE: u32 = 1;

const KEY: u32 = 2;

/// The slot of the first message of a side; a responder has this seat.
fn first_slot(kind: XKind, role: Role, seat: u8) -> u32
    ensures { result ≡ first_slot kind role seat }
{
    match (kind, role) {
        (XKind::Balanced, Role::Initiator) => 0,
        (XKind::Push, Role::Initiator) => 3,
        (XKind::Balanced, Role::Responder) => 6 + 3 * u32::from(seat),
        (XKind::Push, Role::Responder) => 6 + 3 * (SEATS_A_ROUND + u32::from(seat)),
    }
}

/// The leaf of a step of a side.
fn leaf_at(round: u32, kind: XKind, role: Role, step: u32, seat: u8) -> u32
    requires first { 1 ≤ round }
    requires fits { leaves_a_round * round < 2 ^ 32 }
    requires seat { seat < seats_a_round }
    requires step { step < 3 }
    ensures { result ≡ leaf_at round kind role step seat }
{
    LEAVES_A_ROUND * (round - 1) + (first_slot(kind, role, seat) + step)
}

/// The step of a side to which a message of a kind belongs.
fn step_of(kind: Kind) -> u32
    ensures step { (b : PlainBody) → kind_of b ≡ kind → result ≡ step_of b }
    ensures low { result < 3 }
{
    match kind {
        Kind::Case => CASE,
        Kind::Key => KEY,
        _ => FIRST,
    }
}

/// The leaf that signs a message of a kind from one side of an exchange. A responder has a seat below `SEATS_A_ROUND`.
pub fn leaf_for(kind: Kind, x: Exchange, role: Role, seat: u8) -> u32
    requires first { 1 ≤ x.round }
    requires fits { leaves_a_round * x.round < 2 ^ 32 }
    requires seat { seat < seats_a_round }
    ensures { (b : PlainBody) → kind_of b ≡ kind → part_of b ≡ Some (x.round, x.kind, role) → result ≡ leaf_of b seat }
{
    leaf_at(x.round, x.kind, role, step_of(kind), seat)
}

/// The leaf that signs a message of a signed kind. If its sender is the responder, it has a seat below `SEATS_A_ROUND`.
///
/// A peer has `LEAVES_A_ROUND` leaves for each round, one for each message that it may sign there. The first are request, briefcase and key
/// as balanced initiator, then the same as push initiator. Then follow response, briefcase and key in each seat as balanced responder, then
/// in each seat as push responder. The broadcaster has two, for the manifest and the notice of evictions.
pub fn leaf_of(body: &Body<'_>, seat: u8) -> u32
    requires signed { is_signed (plain body.now) ≡ true }
    requires first { 1 ≤ round_of (plain body.now) }
    requires fits { leaves_a_round * round_of (plain body.now) < 2 ^ 32 }
    requires seat { seat < seats_a_round }
    ensures { result ≡ leaf_of (plain body.now) seat }
{
    let (balanced, push) = (XKind::Balanced, XKind::Push);
    match body {
        Body::Manifest { round, .. } => 2 * (*round - 1),
        Body::Evict { round, .. } => 2 * (*round - 1) + 1,
        Body::Request { round, .. } => leaf_at(*round, balanced, Role::Initiator, FIRST, seat),
        Body::Query { round, .. } => leaf_at(*round, push, Role::Initiator, FIRST, seat),
        Body::Response { round, .. } => leaf_at(*round, balanced, Role::Responder, FIRST, seat),
        Body::Reply { round, .. } => leaf_at(*round, push, Role::Responder, FIRST, seat),
        Body::Case {
            round,
            xkind,
            role,
            ..
        } => leaf_at(*round, *xkind, *role, CASE, seat),
        Body::Key {
            round,
            xkind,
            role,
            ..
        } => leaf_at(*round, *xkind, *role, KEY, seat),
        // The other kinds are never signed.
        _ => 0,
    }
}
