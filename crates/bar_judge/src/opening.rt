//! What a KEY shows of a CASE.
ghost use Rattle.std.specs.Prelude.{◌≡◌, ◌+◌, ◌*◌, ◌≤◌, ◌&&◌, false, true, length};
ghost use Rattle.std.specs.Bool.{then_some};
ghost use Rattle.std.specs.Option.{option_map_or};
ghost use Rattle.bar_window.specs.Limits.{block_size, junk_size, most_items};
ghost use Rattle.bar_window.specs.Terms.{plain_terms};
ghost use Rattle.bar_terms.specs.Table.{digests_of, no_lists};
ghost use Rattle.bar_terms.specs.Terms.{can_promise};
ghost use Rattle.bar_terms.specs.Code.Windows.{AreAligned, AreWindowsOf};
ghost use Rattle.bar_case.specs.Opened.{is_bad};
ghost use Rattle.bar_wire.specs.Bodies.{briefcase_in, key_in};
ghost use Rattle.bar_wire.specs.Datagram.{exchange_by};
ghost use Rattle.bar_wire.specs.Code.Views.{datagram, plain};
ghost use Rattle.bar_wire.specs.declared.shape.Shape.{Shape};
ghost use Rattle.bar_rules.specs.Judge.Verdict.{bad_opening, is_unknown_pair, key_fits};
ghost use Rattle.bar_rules.specs.Values.{counts_ok, is_unknown, opening_of, terms_ok};
ghost use Rattle.bar_judge.specs.Code.Parts.{IsRead, plain_briefcase, plain_key};

use crate::briefcase::{Briefcase, briefcase_of};
use crate::given_key::{GivenKey, key_of};
use bar_case::{Opening, unseal};
use bar_roster::Session;
use bar_terms::laws::valid_terms_can_promise;
use bar_terms::{Table, junk_count, terms_fit, update_count};
use bar_window::{BLOCK_SIZE, Exchange, MOST_ITEMS};
use bar_wire::{View, exchange_by};

/// Whether a briefcase has as many items as its sender promises by its terms.
pub(crate) fn has_counts(case: &Briefcase<'_>, cap: u8) -> bool
    requires windows { AreAligned case.now.terms }
    requires valid { can_promise cap (plain_terms case.now.terms) ≡ true }
    requires cap { cap ≤ most_items }
    ensures { (s : Session) → s.cap ≡ cap → result ≡ counts_ok s (plain_briefcase case.now) }
{
    case.updates == update_count(&case.terms, case.role, cap)
        && case.junk == junk_count(&case.terms, case.role)
}

/// Whether a key is for a briefcase: of the same exchange, side and receiver.
fn is_key_for(m: &View<'_>, case: &Briefcase<'_>, n: &View<'_>, key: &GivenKey<'_>) -> bool
    ensures { (s : Shape) → result ≡ key_fits (datagram s m.now).message (plain_briefcase case.now) (datagram s n.now).message
        (plain_key key.now) }
{
    let of_case = case.exchange(m.from, m.to);
    let of_key = exchange_by(key.round, key.kind, key.role, n.from, n.to);
    m.to == n.to && of_case == of_key && case.role == key.role
}

/// What a key shows of a briefcase of an exchange, if its terms are valid and its counts are those of its sender's promise.
fn opening_by(
    session: &Session,
    table: &Table,
    x: Exchange,
    case: &Briefcase<'_>,
    key: &[u8; 32],
) -> Option<Opening>
    requires windows { AreWindowsOf session.now.shape.life case.now.round case.now.terms }
    requires round { x.round ≡ case.now.round }
    requires whole { length case.now.cipher.now ≡ block_size * case.now.updates + junk_size * case.now.junk }
    ensures { result ≡ then_some
        (terms_ok session.now no_lists x (plain_terms case.now.terms) && counts_ok session.now (plain_briefcase case.now))
        (opening_of session.now (digests_of table.now.lists) x (plain_briefcase case.now) key.now) }
{
    valid_terms_can_promise();
    let shape = session.shape();
    let cap = session.cap();
    if !terms_fit(&case.terms, x, cap, shape.life) {
        return None;
    }
    if !has_counts(case, cap) {
        return None;
    }
    let mut blocks = [[0; BLOCK_SIZE]; MOST_ITEMS];
    Some(unseal(
        &shape.id,
        x,
        &case.terms,
        case.role,
        cap,
        case.cipher,
        key,
        table,
        &mut blocks,
    ))
}

/// What the second datagram shows of the first, if they are a briefcase that can be opened and a key for it.
fn opening_of(session: &Session, table: &Table, m: &View<'_>, n: &View<'_>) -> Option<Opening>
    requires read { IsRead session.now.shape m.now }
    ensures bad { option_map_or is_bad result false ≡ bad_opening session.now (digests_of table.now.lists)
        (datagram session.now.shape m.now).message (datagram session.now.shape n.now).message
        (briefcase_in (plain m.now.body)) (key_in (plain n.now.body)) }
    ensures unknown { option_map_or is_unknown result false ≡ is_unknown_pair session.now (digests_of table.now.lists)
        (datagram session.now.shape m.now).message (datagram session.now.shape n.now).message
        (briefcase_in (plain m.now.body)) (key_in (plain n.now.body)) }
{
    let case = briefcase_of(m)?;
    let key = key_of(n)?;
    if !is_key_for(m, &case, n, &key) {
        return None;
    }
    let x = case.exchange(m.from, m.to);
    opening_by(session, table, x, &case, key.key)
}

/// Whether the two are a briefcase and a key for it, which show that an item is not what was promised.
pub(crate) fn shows_bad_opening(
    session: &Session,
    table: &Table,
    m: &View<'_>,
    n: &View<'_>,
) -> bool
    requires read { IsRead session.now.shape m.now }
    ensures { result ≡ bad_opening session.now (digests_of table.now.lists)
        (datagram session.now.shape m.now).message (datagram session.now.shape n.now).message
        (briefcase_in (plain m.now.body)) (key_in (plain n.now.body)) }
{
    matches!(opening_of(session, table, m, n), Some(Opening::Bad { .. }))
}

/// Whether the two are a briefcase and a key for it that shows no wrong item, and the table lacks the round of a promised update.
pub(crate) fn is_unknown_pair(session: &Session, table: &Table, m: &View<'_>, n: &View<'_>) -> bool
    requires read { IsRead session.now.shape m.now }
    ensures { result ≡ is_unknown_pair session.now (digests_of table.now.lists)
        (datagram session.now.shape m.now).message (datagram session.now.shape n.now).message
        (briefcase_in (plain m.now.body)) (key_in (plain n.now.body)) }
{
    matches!(
        opening_of(session, table, m, n),
        Some(Opening::Unknown { .. })
    )
}
