//! The first round for which terms name an update past the end of the round's list.
ghost use Rattle.std.specs.Prelude.{◌≡◌, ◌==◌, ◌&&◌, ◌++◌};
ghost use Rattle.std.specs.List.{list_any};
ghost use Rattle.bar_window.specs.Terms.{plain_terms};
ghost use Rattle.bar_window.specs.Code.Window.{members, IsAligned};
ghost use Rattle.bar_terms.specs.Table.{digests_of, digest_of, is_past_end};
ghost use Rattle.bar_terms.specs.Code.Windows.{AreAligned};
ghost use Rattle.bar_proof.specs.Needs.{least, listed_updates, rounds_past_end};

use bar_terms::Table;
use bar_window::{Terms, UpdateId, Window};

/// The most updates of a round.
const MOST_UPDATES: u8 = 128;

/// Whether a window has an update of a round past the end of the round's list.
fn has_past(window: &Window, round: u32, table: &Table) -> bool
    ensures { result ≡ list_any (λ u. (u.round == round) && is_past_end (digest_of (digests_of table.now.lists) u)) (members window.now) }
{
    let Some(count) = table.count(round) else {
        return false;
    };
    for index in count..MOST_UPDATES {
        if window.has(UpdateId { round, index }) {
            return true;
        }
    }
    false
}

/// The first round of which one of two windows has an update past the end of the round's list.
fn first_past(one: &Window, two: &Window, table: &Table) -> Option<u32>
    requires { IsAligned one.now two.now }
    ensures { result ≡ least (rounds_past_end (digests_of table.now.lists) (members one.now ++ members two.now)) }
{
    for row in 0..one.used {
        let round = one.base + u32::from(row);
        if has_past(one, round, table) || has_past(two, round, table) {
            return Some(round);
        }
    }
    None
}

/// The first round for which terms name an update past the end of the round's list.
pub(crate) fn past_round(terms: &Terms, table: &Table) -> Option<u32>
    requires { AreAligned terms.now }
    ensures { result ≡ least (rounds_past_end (digests_of table.now.lists) (listed_updates (plain_terms terms.now))) }
{
    match terms {
        Terms::Balanced { ha, hb, .. } => first_past(ha, hb, table),
        Terms::Push { young, aged, .. } => first_past(young, aged, table),
    }
}
