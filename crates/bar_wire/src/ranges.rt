ghost use Rattle.std.specs.Prelude.{◌+◌, ◌*◌, ◌<◌, ◌↔◌, IsTrue};
ghost use Rattle.bar_window.specs.Terms.{plain_terms};
ghost use Rattle.bar_wire.specs.Grammar.{InRange, HasFewJunk, IsPeer, MaySend};
ghost use Rattle.bar_wire.specs.Code.Views.{plain, AreWhole};

use crate::entries::{are_datagrams_in_range, are_parties_in_range};
use crate::kind::Kind;
use crate::limits::EVERYONE;
use crate::shape::Shape;
use crate::view::Body;
use crate::windows::is_round;
use bar_window::{MOST_ITEMS, Terms};

fn has_few_junk(terms: &Terms) -> bool
    ensures { IsTrue result ↔ HasFewJunk (plain_terms terms.now) }
{
    match terms {
        Terms::Balanced { .. } => true,
        Terms::Push { junk, .. } => usize::from(*junk) <= MOST_ITEMS,
    }
}

/// Whether each field is in its range.
#[tactic(auto, using(crate::proofs::Steps::length_chunks))]
pub(crate) fn is_in_range(body: &Body<'_>, shape: &Shape) -> bool
    requires { AreWhole body.now }
    ensures { IsTrue result ↔ InRange shape.now (plain body.now) }
{
    match body {
        Body::Manifest { round, count, .. } => is_round(*round, shape) && *count <= shape.per_round,
        Body::Block { round, index, .. } => is_round(*round, shape) && *index < shape.per_round,
        Body::Request { round, .. } => is_round(*round, shape),
        Body::Response { round, .. } => is_round(*round, shape),
        Body::Divulge { round, .. } => is_round(*round, shape),
        Body::Query { round, .. } => is_round(*round, shape),
        Body::Reply { round, junk, .. } => is_round(*round, shape)
            && usize::from(*junk) <= MOST_ITEMS,
        Body::Case {
            round,
            updates,
            junk,
            terms,
            ..
        } => {
            let items = usize::from(*updates) + usize::from(*junk);
            is_round(*round, shape) && 0 < items && items <= MOST_ITEMS && has_few_junk(terms)
        }
        Body::KeyReq { round, .. } => is_round(*round, shape),
        Body::Key { round, .. } => is_round(*round, shape),
        Body::Evidence { count, datagrams } => are_datagrams_in_range(*count, datagrams),
        Body::Evict {
            round,
            count,
            parties,
        } => is_round(*round, shape) && are_parties_in_range(shape.peers, *count, parties),
    }
}

fn is_peer(party: u16, shape: &Shape) -> bool
    ensures { IsTrue result ↔ IsPeer shape.now party }
{
    0 < party && party <= shape.peers
}

/// Whether a party may send a kind to another.
pub(crate) fn may_send(kind: Kind, from: u16, to: u16, shape: &Shape) -> bool
    ensures { IsTrue result ↔ MaySend shape.now kind from to }
{
    match kind {
        Kind::Manifest | Kind::Evict => from == 0 && to == EVERYONE,
        Kind::Block => from == 0 && is_peer(to, shape),
        Kind::Evidence => is_peer(from, shape) && to == 0,
        Kind::Request
        | Kind::Response
        | Kind::Divulge
        | Kind::Query
        | Kind::Reply
        | Kind::Case
        | Kind::KeyReq
        | Kind::Key => is_peer(from, shape) && is_peer(to, shape) && from != to,
    }
}
