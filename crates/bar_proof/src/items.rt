//! The round of the first bad item that a key shows of a briefcase.
ghost use Rattle.std.specs.Prelude.{◌≡◌, ◌+◌, ◌*◌, ◌≤◌, ◌&&◌, true, length, take, option_and_then};
ghost use Rattle.bar_window.specs.Limits.{block_size, junk_size, most_items};
ghost use Rattle.bar_window.specs.Terms.{plain_terms};
ghost use Rattle.bar_terms.specs.Table.{digests_of, no_lists};
ghost use Rattle.bar_terms.specs.Terms.{promise};
ghost use Rattle.bar_terms.specs.Code.Windows.{AreWindowsOf};
ghost use Rattle.bar_wire.specs.Bodies.{briefcase_in, key_in};
ghost use Rattle.bar_wire.specs.Code.Views.{datagram, plain};
ghost use Rattle.bar_rules.specs.Values.{counts_ok, opening_of, terms_ok};
ghost use Rattle.bar_judge.specs.Code.Parts.{IsRead, plain_briefcase};
ghost use Rattle.bar_proof.specs.Needs.{bad_item, bad_round, round_of_item, OpensBadly};

use bar_case::{Opening, unseal};
use bar_judge::{Briefcase, briefcase_of};
use bar_roster::Session;
use bar_terms::laws::valid_terms_can_promise;
use bar_terms::{Item, Promise, Table, promise};
use bar_window::{BLOCK_SIZE, Exchange, MOST_ITEMS};
use bar_wire::{Body, View};

/// The round of the bad item, if there is one and it is an update.
fn round_of_bad(opening: Opening, promise: &Promise) -> Option<u32>
    requires { promise.now.len ≤ most_items }
    ensures { result ≡ option_and_then round_of_item (bad_item opening (take promise.now.len promise.now.items)) }
{
    let Opening::Bad { item } = opening else {
        return None;
    };
    match promise.items[..usize::from(promise.len)].get(usize::from(item)) {
        Some(Item::Update(update)) => Some(update.round),
        _ => None,
    }
}

/// The round of the first bad item that a key shows of a briefcase of an exchange, if that item is an update.
fn bad_round_by(
    session: &Session,
    table: &Table,
    x: Exchange,
    case: &Briefcase<'_>,
    key: &[u8; 32],
) -> Option<u32>
    requires windows { AreWindowsOf session.now.shape.life case.now.round case.now.terms }
    requires whole { length case.now.cipher.now ≡ block_size * case.now.updates + junk_size * case.now.junk }
    requires valid { (terms_ok session.now no_lists x (plain_terms case.now.terms)
        && counts_ok session.now (plain_briefcase case.now)) ≡ true }
    ensures { result ≡ option_and_then round_of_item
        (bad_item (opening_of session.now (digests_of table.now.lists) x (plain_briefcase case.now) key.now)
        (promise session.now.cap (plain_terms case.now.terms) case.now.role)) }
{
    valid_terms_can_promise();
    let shape = session.shape();
    let cap = session.cap();
    let mut blocks = [[0; BLOCK_SIZE]; MOST_ITEMS];
    let opening = unseal(
        &shape.id,
        x,
        &case.terms,
        case.role,
        cap,
        case.cipher,
        key,
        table,
        &mut blocks,
    );
    round_of_bad(opening, &promise(&case.terms, case.role, cap))
}

/// The round of the first bad item that the second datagram shows of the first, if they are a briefcase and a key for it that opens it
/// badly, and the item is an update.
pub(crate) fn bad_round(session: &Session, table: &Table, m: &View<'_>, n: &View<'_>) -> Option<u32>
    requires read { IsRead session.now.shape m.now }
    requires opened { OpensBadly session.now (digests_of table.now.lists) (datagram session.now.shape m.now).message
        (datagram session.now.shape n.now).message }
    ensures { result ≡ bad_round session.now (digests_of table.now.lists) (datagram session.now.shape m.now).message
        (briefcase_in (plain m.now.body)) (key_in (plain n.now.body)) }
{
    let case = briefcase_of(m)?;
    let Body::Key { key, .. } = n.body else {
        return None;
    };
    let x = case.exchange(m.from, m.to);
    bad_round_by(session, table, x, &case, key)
}
