//! The arguments of `keygen` and `hsskeygen`.
ghost use Rattle.std.specs.Prelude.{◌≡◌, ◌≤◌};
ghost use Rattle.std.specs.Option.{option_map};
ghost use Rattle.bar_arguments.specs.Options.{texts};
ghost use Rattle.bar_cli.specs.Line.{asked_by, hsskeygen_values, keygen_values};
ghost use Rattle.bar_cli.specs.Keygen.Types.{types_view};
ghost use Rattle.bar_session.specs.Limits.{most_long_rounds};
ghost use Rattle.bar_cli.specs.Code.Views.{asked_view};

use crate::keygen::key_types::KeyTypes;
use crate::keygen::types::{levels_of, types_of};
use crate::keygen::words::KeygenWords;
use bar_arguments::{id_of, number_in};
use bar_roster::{MOST_LONG_ROUNDS, MOST_PEERS, MOST_ROUNDS};

pub(super) const KEYGEN_OPTIONS: [&str; 7] = [
    "party", "id", "rounds", "lms", "ots", "secret", "key",
];

pub(super) const HSSKEYGEN_OPTIONS: [&str; 7] = [
    "party", "id", "rounds", "top", "ots", "secret", "key",
];

/// The requested key, with signatures of these types and at most `most` rounds.
fn asked_of<'a>(
    most: u64,
    types: Option<KeyTypes>,
    party: &str,
    id: &str,
    rounds: &str,
    secret: &'a str,
    key: &'a str,
) -> Option<KeygenWords<'a>>
    requires { most ≤ most_long_rounds }
    ensures { option_map asked_view result ≡ asked_by most (option_map types_view types) party.now id.now rounds.now secret.now key.now }
{
    let party = number_in(party, 0, MOST_PEERS)? as u16;
    let id = id_of(id)?;
    let rounds = number_in(rounds, 1, most)? as u32;
    let types = types?;
    Some(KeygenWords {
        party,
        id,
        rounds,
        types,
        secret,
        key,
    })
}

/// The requested key, from the values of the options of `keygen`.
pub(super) fn keygen_of<'a>(values: &[&'a str]) -> Option<KeygenWords<'a>>
    ensures { option_map asked_view result ≡ keygen_values (texts values.now) }
{
    let [party, id, rounds, lms, ots, secret, key] = *values else {
        return None;
    };
    asked_of(
        MOST_ROUNDS,
        types_of(lms, ots),
        party,
        id,
        rounds,
        secret,
        key,
    )
}

/// The requested key, from the values of the options of `hsskeygen`.
pub(super) fn hsskeygen_of<'a>(values: &[&'a str]) -> Option<KeygenWords<'a>>
    ensures { option_map asked_view result ≡ hsskeygen_values (texts values.now) }
{
    let [party, id, rounds, top, ots, secret, key] = *values else {
        return None;
    };
    asked_of(
        MOST_LONG_ROUNDS,
        levels_of(top, ots),
        party,
        id,
        rounds,
        secret,
        key,
    )
}
