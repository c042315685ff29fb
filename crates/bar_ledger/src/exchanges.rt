//! The order of exchanges, the kind of datagram that opens one, and when its KEYs are due.
ghost use Rattle.std.specs.Prelude.{◌≡◌, Some};
ghost use Rattle.bar_rules.specs.Peer.Debts.{is_due};
ghost use Rattle.bar_rules.specs.Peer.Exchanges.{opening_kind};
ghost use Rattle.bar_ledger.specs.Code.Hearing.{hears, is_opening};
ghost use Rattle.bar_ledger.specs.Code.Naming.{is_beside};
ghost use Rattle.bar_ledger.specs.Code.Order.{is_above, is_below, best_with};

use crate::deadlines::ANSWER_DEADLINE;
use bar_window::{Exchange, Role, XKind};
use bar_wire::Kind;

/// Whether the KEYs of an exchange are due in a round: `ANSWER_DEADLINE` rounds or more after its own, while KEYs may still be given.
pub(crate) fn is_due(x: Exchange, life: u8, now: u32) -> bool
    ensures { result ≡ is_due life x.round now }
{
    let round = u64::from(x.round);
    let now = u64::from(now);
    round + u64::from(ANSWER_DEADLINE) <= now && now <= round + u64::from(life)
}

/// Whether `y` is another exchange than `x` and the party is one of its two.
pub(crate) fn is_beside(x: Exchange, party: u16, y: Exchange) -> bool
    ensures { result ≡ is_beside x party y }
{
    x != y && (y.initiator == party || y.responder == party)
}

/// The kind of a side's first signed datagram.
pub fn opening_kind(kind: XKind, role: Role) -> Kind
    ensures { result ≡ opening_kind kind role }
{
    match (kind, role) {
        (XKind::Balanced, Role::Initiator) => Kind::Request,
        (XKind::Balanced, Role::Responder) => Kind::Response,
        (XKind::Push, Role::Initiator) => Kind::Query,
        (XKind::Push, Role::Responder) => Kind::Reply,
    }
}

/// Whether a kind is that of the other side's first signed datagram.
pub(crate) fn opens(kind: Kind, x: Exchange, role: Role) -> bool
    ensures { result ≡ is_opening kind x.kind role }
{
    kind == opening_kind(x.kind, role.other())
}

/// Whether a side of an exchange hears a kind.
pub(crate) fn hears(kind: Kind, x: Exchange, role: Role) -> bool
    ensures { result ≡ hears kind x.kind role }
{
    match kind {
        Kind::Case | Kind::KeyReq | Kind::Key => true,
        Kind::Divulge => match (x.kind, role) {
            (XKind::Balanced, Role::Responder) => true,
            _ => false,
        },
        Kind::Manifest
        | Kind::Block
        | Kind::Request
        | Kind::Response
        | Kind::Query
        | Kind::Reply
        | Kind::Evidence
        | Kind::Evict => opens(kind, x, role),
    }
}

/// The exchange, if it is above `after` and below `best`; else `best`.
pub(crate) fn least_above(
    x: Exchange,
    after: Option<Exchange>,
    best: Option<Exchange>,
) -> Option<Exchange>
    ensures { result ≡ best_with after best (Some x) }
{
    if is_above(after, x) && is_below(x, best) {
        Some(x)
    } else {
        best
    }
}

fn is_above(after: Option<Exchange>, x: Exchange) -> bool
    ensures { result ≡ is_above after x }
{
    match after {
        Some(y) => y < x,
        None => true,
    }
}

fn is_below(x: Exchange, best: Option<Exchange>) -> bool
    ensures { result ≡ is_below x best }
{
    match best {
        Some(y) => x < y,
        None => true,
    }
}
