//! When a REPLY is admitted.
ghost use Rattle.std.specs.Prelude.{◌≡◌, ◌≤◌, ℕ, false, option_and_then};
ghost use Rattle.std.specs.Option.{option_map_or};
ghost use Rattle.bar_window.specs.declared.exchange.Role.TheVariants.{Initiator, Responder};
ghost use Rattle.bar_window.specs.declared.exchange.XKind.TheVariants.{Push};
ghost use Rattle.bar_window.specs.Terms.{plain_terms};
ghost use Rattle.bar_window.specs.Code.Window.{members};
ghost use Rattle.bar_terms.specs.Table.{digests_of};
ghost use Rattle.bar_wire.specs.Code.Views.{AreTermWindows, IsWindowIn};
ghost use Rattle.bar_wire.specs.Bodies.{offer_in};
ghost use Rattle.bar_wire.specs.Datagram.{Reply, exchange_by};
ghost use Rattle.bar_wire.specs.declared.kind.Kind.TheVariants.{Query};
ghost use Rattle.bar_rules.specs.Member.{Member, Session};
ghost use Rattle.bar_rules.specs.Values.{terms_ok};
ghost use Rattle.bar_rules.specs.Peer.Admission.{body_said, is_row_met, terms_with};
ghost use Rattle.bar_rules.specs.Peer.Agreement.{IsRecent};
ghost use Rattle.bar_rules.specs.Peer.Knowledge.{Knowledge, table_of};
ghost use Rattle.bar_store.specs.Code.Holds.{Holds};
ghost use Rattle.bar_ledger.specs.Code.Lookups.{offer_of};
ghost use Rattle.bar_ledger.specs.Code.Recalls.{Recalls};

use bar_exchange::{ANSWER_DEADLINE, is_window_in};
use bar_ledger::Ledger;
use bar_store::Store;
use bar_terms::{PushAnswer, Table, terms_ok};
use bar_window::{Exchange, Role, Terms};
use bar_wire::{Kind, Shape};

/// Whether an answer forms valid terms with an offer.
fn fits(
    terms: &Terms,
    answer: PushAnswer,
    x: Exchange,
    cap: u8,
    shape: &Shape,
    table: &Table,
) -> bool
    ensures { (s : Session) → cap ≡ s.cap → shape.now ≡ s.shape → AreTermWindows s.shape x.round terms.now
        → IsWindowIn s.shape x.round answer.want → IsWindowIn s.shape x.round answer.give
        → result ≡ option_map_or (terms_ok s (digests_of table.now.lists) x)
        (terms_with (offer_of (plain_terms terms.now)) (members answer.want) (members answer.give) answer.junk) false }
{
    let PushAnswer { want, give, junk } = answer;
    let Terms::Push { young, aged, .. } = *terms else {
        return false;
    };
    if !is_window_in(&young, shape, x.round) || !is_window_in(&aged, shape, x.round) {
        return false;
    }
    if !is_window_in(&want, shape, x.round) || !is_window_in(&give, shape, x.round) {
        return false;
    }
    let made = Terms::Push {
        young,
        aged,
        want,
        give,
        junk,
    };
    terms_ok(&made, x, cap, shape.life, table)
}

/// Whether an answer forms valid terms with this peer's offer in a push.
fn makes_terms(store: &Store, ledger: &Ledger, x: Exchange, answer: PushAnswer) -> bool
    ensures { (me : Member) (k : Knowledge) → Holds me k store.now → Recalls me k ledger.now → IsRecent me k x.round → x.kind ≡ Push
        → IsWindowIn me.session.shape x.round answer.want → IsWindowIn me.session.shape x.round answer.give
        → result ≡ option_map_or (terms_ok me.session (table_of k) x)
        (terms_with (option_and_then offer_in (body_said k Query x Initiator))
        (members answer.want) (members answer.give) answer.junk) false }
{
    if !ledger.has_said(x, Kind::Query, Role::Initiator) {
        return false;
    }
    let Some(entry) = ledger.find(x) else {
        return false;
    };
    fits(
        &entry.terms,
        answer,
        x,
        ledger.cap(),
        &ledger.shape(),
        store.table(),
    )
}

/// Whether a REPLY meets its row.
pub(crate) fn admits_reply(store: &Store, ledger: &Ledger, x: Exchange, answer: PushAnswer) -> bool
    ensures { (me : Member) (k : Knowledge) (from to r : ℕ) → Holds me k store.now → Recalls me k ledger.now → 2 ≤ me.session.shape.life
        → x ≡ exchange_by r Push Responder from to
        → IsWindowIn me.session.shape r answer.want → IsWindowIn me.session.shape r answer.give
        → result ≡ is_row_met me k from to (Reply r (members answer.want) (members answer.give) answer.junk) }
{
    ledger.is_within(x, ANSWER_DEADLINE) && makes_terms(store, ledger, x, answer)
}
