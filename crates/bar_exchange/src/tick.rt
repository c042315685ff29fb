//! The messages that are sent again at a tick.
ghost use Rattle.std.specs.Prelude.{◌≡◌, ◌++◌, [], ◌∷◌, true};
ghost use Rattle.bar_rules.specs.Member.{Member, IsMember};
ghost use Rattle.bar_rules.specs.Peer.Agreement.{IsRecent};
ghost use Rattle.bar_rules.specs.Peer.Exchanges.{role_of};
ghost use Rattle.bar_rules.specs.Peer.Knowledge.{Knowledge};
ghost use Rattle.bar_wire.specs.declared.kind.Kind.TheVariants.{Case};
ghost use Rattle.bar_rules.specs.Peer.Orders.{AskKey, Resend};
ghost use Rattle.bar_rules.specs.Peer.Replies.{orders_when};
ghost use Rattle.bar_rules.specs.Peer.Ticks.{lacks_answer, lacks_case, lacks_key, lacks_keys, reveals, case_again, again};
ghost use Rattle.bar_ledger.specs.Code.Recalls.{Recalls};
ghost use Rattle.bar_exchange.specs.Code.Says.{orders_at_tick};

use crate::say::Say;
use crate::says::Says;
use bar_ledger::{ANSWER_DEADLINE, Ledger, REQUEST_DEADLINE, opening_kind};
use bar_window::{Exchange, Role, XKind};
use bar_wire::Kind;

/// Whether this peer, on side `role`, neither said nor heard a KEY of an exchange.
fn lacks_keys(ledger: &Ledger, x: Exchange, role: Role) -> bool
    ensures { (me : Member) (k : Knowledge) → Recalls me k ledger.now → IsRecent me k x.round → role ≡ role_of me x
        → result ≡ lacks_keys me k x }
{
    !ledger.has_said(x, Kind::Key, role) && !ledger.has_heard(x, Kind::Key, role.other())
}

/// Whether this peer's CASE is said, may still be sent again, and the partner may lack it. In version 3 the partner may lack it if no KEY
/// is said or heard; in earlier versions, if the partner's CASE isn't heard.
fn lacks_case(ledger: &Ledger, x: Exchange) -> bool
    ensures { (me : Member) (k : Knowledge) → IsMember me → Recalls me k ledger.now → result ≡ lacks_case me k x }
{
    let role = ledger.side(x);
    if !ledger.is_within(x, ANSWER_DEADLINE) {
        return false;
    }
    if !ledger.has_said(x, Kind::Case, role) {
        return false;
    }
    if ledger.shape().is_third() {
        lacks_keys(ledger, x, role)
    } else {
        !ledger.has_heard(x, Kind::Case, role.other())
    }
}

/// Whether this peer's CASE is said and the partner's is heard, but the partner's KEY isn't, and it may still be asked for.
fn lacks_key(ledger: &Ledger, x: Exchange) -> bool
    ensures { (me : Member) (k : Knowledge) → Recalls me k ledger.now → result ≡ lacks_key me k x }
{
    let role = ledger.side(x);
    if !ledger.is_within(x, ledger.life()) {
        return false;
    }
    if !ledger.has_said(x, Kind::Case, role) {
        return false;
    }
    if !ledger.has_heard(x, Kind::Case, role.other()) {
        return false;
    }
    !ledger.has_heard(x, Kind::Key, role.other())
}

/// Sends the CASE again; the initiator of a balanced exchange sends its DIVULGE before it.
fn case_revealed(x: Exchange, role: Role) -> Says
    ensures { orders_at_tick result ≡ reveals x.kind role x ++ Resend Case x ∷ [] }
{
    let case = Say {
        kind: Kind::Case,
        x,
    };
    match (x.kind, role) {
        (XKind::Balanced, Role::Initiator) => Says::Two(
            Say {
                kind: Kind::Divulge,
                x,
            },
            case,
        ),
        _ => Says::One(case),
    }
}

/// Sends the CASE again. If the partner's CASE is heard, the KEYREQ is sent after it. Else the initiator of a balanced exchange sends its
/// DIVULGE before it.
fn case_again(ledger: &Ledger, x: Exchange) -> Says
    ensures { (me : Member) (k : Knowledge) → IsMember me → Recalls me k ledger.now → lacks_case me k x ≡ true
        → orders_at_tick result ≡ case_again me k x ++ orders_when (lacks_key me k x) (AskKey x ∷ []) }
{
    let role = ledger.side(x);
    if !ledger.has_heard(x, Kind::Case, role.other()) {
        return case_revealed(x, role);
    }
    let case = Say {
        kind: Kind::Case,
        x,
    };
    let key_request = Say {
        kind: Kind::KeyReq,
        x,
    };
    Says::Two(case, key_request)
}

/// What is sent again in an answered exchange: the CASE with the DIVULGE or the KEYREQ, or the KEYREQ alone, or nothing.
fn later_again(ledger: &Ledger, x: Exchange) -> Says
    ensures { (me : Member) (k : Knowledge) → IsMember me → Recalls me k ledger.now
        → orders_at_tick result
        ≡ orders_when (lacks_case me k x) (case_again me k x) ++ orders_when (lacks_key me k x) (AskKey x ∷ []) }
{
    if lacks_case(ledger, x) {
        case_again(ledger, x)
    } else if lacks_key(ledger, x) {
        Says::One(Say {
            kind: Kind::KeyReq,
            x,
        })
    } else {
        Says::Nothing
    }
}

/// Whether this peer asked for an exchange, has no answer, and may still ask.
fn lacks_answer(ledger: &Ledger, x: Exchange) -> bool
    ensures { (me : Member) (k : Knowledge) → IsMember me → Recalls me k ledger.now → result ≡ lacks_answer me k x }
{
    let answer = opening_kind(x.kind, Role::Responder);
    ledger.is_within(x, REQUEST_DEADLINE)
        && x.initiator == ledger.me()
        && !ledger.has_heard(x, answer, Role::Responder)
}

/// What is sent again at a tick in an open exchange: the request if it has no answer, else the messages after the answer.
pub fn again(ledger: &Ledger, x: Exchange) -> Says
    ensures { (me : Member) (k : Knowledge) → IsMember me → Recalls me k ledger.now → orders_at_tick result ≡ again me k x }
{
    if lacks_answer(ledger, x) {
        let kind = opening_kind(x.kind, Role::Initiator);
        Says::One(Say { kind, x })
    } else {
        later_again(ledger, x)
    }
}
