//! The faults that two messages show whatever the table is.
ghost use Rattle.std.specs.Prelude.{◌≡◌, ◌≤◌, ℕ, true, option_map};
ghost use Rattle.bar_window.specs.Limits.{most_life};
ghost use Rattle.bar_window.specs.Terms.{plain_terms};
ghost use Rattle.bar_window.specs.Code.Window.{members};
ghost use Rattle.bar_wire.specs.Bodies.{is_peer_kind};
ghost use Rattle.bar_wire.specs.Datagram.{round_of};
ghost use Rattle.bar_wire.specs.Code.Views.{datagram, plain, AreWindows, AreTermWindows, IsWindowIn};
ghost use Rattle.bar_wire.specs.declared.shape.Shape.{Shape as ShapeData};
ghost use Rattle.bar_rules.specs.Judge.Verdict.{broken_commit, differs, fault_by_words, fault_by_case, is_twice, other_window, same_place};
ghost use Rattle.bar_rules.specs.Member.{Session as RulesSession};
ghost use Rattle.bar_wire.specs.Bodies.{briefcase_in};
ghost use Rattle.bar_judge.specs.Code.Parts.{IsRead};
ghost use Rattle.bar_judge.specs.Code.Verdicts.{plain_fault};

use crate::briefcase::{Briefcase, briefcase_of};
use crate::fault::Fault;
use bar_seal::identity;
use bar_seal::laws::identities_name_messages;
use bar_seeds::commitment;
use bar_window::{Exchange, Role, Terms, Window};
use bar_wire::{Body, Shape, View, place_of};

/// Whether the two are different messages of one identity.
fn is_twice(m: &View<'_>, n: &View<'_>) -> bool
    requires signed { is_peer_kind (plain m.now.body) ≡ true }
    ensures { (s : RulesSession) → IsRead s.shape m.now → IsRead s.shape n.now
        → result ≡ is_twice s (datagram s.shape m.now).message (datagram s.shape n.now).message }
{
    identities_name_messages();
    let (Some(one), Some(two)) = (identity(m), identity(n)) else {
        return false;
    };
    one == two && m.message != n.message
}

/// Whether two windows are different sets.
fn is_other(one: &Window, two: &Window, life: u8) -> bool
    requires life { life ≤ most_life }
    ensures { (s : RulesSession) (round : ℕ) → s.shape.life ≡ life → IsWindowIn s.shape round one.now → IsWindowIn s.shape round two.now
        → result ≡ other_window s round (members one.now) (members two.now) }
{
    one.bytes()[..one.byte_len(life)] != two.bytes()[..two.byte_len(life)]
}

/// Whether the nonce and the history of the initiator's briefcase don't meet a REQUEST's commitment.
fn breaks_commit(shape: &Shape, x: Exchange, body: &Body<'_>, case: &Briefcase<'_>) -> bool
    requires windows { AreTermWindows shape.now x.round case.now.terms }
    ensures { (s : RulesSession) → s.shape ≡ shape.now
        → result ≡ broken_commit s x case.now.role (plain body.now) (plain_terms case.now.terms) }
{
    match (body, case.role, &case.terms) {
        (
            Body::Request {
                commitment: committed,
                ..
            },
            Role::Initiator,
            Terms::Balanced { nonce, ha, .. },
        ) => { **committed != commitment(&shape.id, x, nonce, ha, shape.life) }
        _ => false,
    }
}

/// Whether the sender's earlier message and the terms of its briefcase say different things.
fn differs(body: &Body<'_>, case: &Briefcase<'_>, shape: &Shape) -> bool
    requires round { round_of (plain body.now) ≡ case.now.round }
    requires windows { AreTermWindows shape.now case.now.round case.now.terms }
    ensures { (s : RulesSession) → s.shape ≡ shape.now → AreWindows s.shape body.now
        → result ≡ differs s case.now.role (plain body.now) (plain_terms case.now.terms) }
{
    let life = shape.life;
    match (body, case.role, &case.terms) {
        (Body::Response { hb, .. }, Role::Responder, Terms::Balanced { hb: answered, .. }) => {
            is_other(hb, answered, life)
        }
        (
            Body::Query { young, aged, .. },
            Role::Initiator,
            Terms::Push {
                young: offered,
                aged: asked,
                ..
            },
        ) => is_other(young, offered, life) || is_other(aged, asked, life),
        (
            Body::Reply {
                want,
                give,
                junk,
                ..
            },
            Role::Responder,
            Terms::Push {
                want: wanted,
                give: given,
                junk: padding,
                ..
            },
        ) => is_other(want, wanted, life) || is_other(give, given, life) || junk != padding,
        _ => false,
    }
}

/// Whether both messages are of one exchange.
fn is_of_one_exchange(m: &View<'_>, n: &View<'_>) -> bool
    ensures { (s : ShapeData) → result ≡ same_place (datagram s m.now).message (datagram s n.now).message }
{
    match (place_of(m), place_of(n)) {
        (Some(one), Some(two)) => one.x == two.x,
        _ => false,
    }
}

/// What an earlier message and a briefcase of its sender show, in this order.
fn fault_by_case(shape: &Shape, m: &View<'_>, n: &View<'_>) -> Option<Fault>
    requires one { IsRead shape.now m.now }
    requires two { IsRead shape.now n.now }
    ensures { (s : RulesSession) → s.shape ≡ shape.now → option_map plain_fault result
        ≡ fault_by_case s (datagram shape.now m.now).message (datagram shape.now n.now).message (briefcase_in (plain n.now.body)) }
{
    let case = briefcase_of(n)?;
    if !is_of_one_exchange(m, n) {
        return None;
    }
    let x = case.exchange(n.from, n.to);
    if breaks_commit(shape, x, &m.body, &case) {
        return Some(Fault::F5);
    }
    if differs(&m.body, &case, shape) {
        return Some(Fault::F6);
    }
    None
}

/// What two messages of one sender show in this order, whatever the table is.
pub(crate) fn fault_by_words(shape: &Shape, m: &View<'_>, n: &View<'_>) -> Option<Fault>
    requires one { IsRead shape.now m.now }
    requires two { IsRead shape.now n.now }
    requires signed { is_peer_kind (plain m.now.body) ≡ true }
    ensures { (s : RulesSession) → s.shape ≡ shape.now → option_map plain_fault result
        ≡ fault_by_words s (datagram shape.now m.now).message (datagram shape.now n.now).message }
{
    if is_twice(m, n) {
        return Some(Fault::F4);
    }
    fault_by_case(shape, m, n)
}
