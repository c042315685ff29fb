//! The values of a key text.

ghost use Rattle.std.specs.Prelude.{◌≡◌, ◌≤◌, is_some, option_map, option_and_then, IfSome};
ghost use Rattle.toml.specs.Data.{get_member};
ghost use Rattle.toml.specs.View.{table_view, view};
ghost use Rattle.bar_roster.specs.Fields.{bytes_of, number_in};
ghost use Rattle.bar_roster.specs.KeyText.{key_fields, names_top, top_in};
ghost use Rattle.bar_session.specs.Limits.{rounds_by};

use crate::fields::{bytes, number};
use crate::numbers::{MOST_PEERS, first_ots_by, last_lms_by, rounds_by};
use toml::{Table, Value};

/// What a key text says: whose key it is, in which session, the types of its signatures, the party's secret, and whether it was used.
#[derive(Clone, Copy)]
pub struct KeyData {
    pub party: u16,
    pub id: [u8; 8],
    pub rounds: u32,
    pub lms: u32,
    pub ots: u32,
    /// The type of the upper tree, if signatures have two levels.
    pub top: Option<u32>,
    pub secret: [u8; 32],
    pub spent: bool,
}

// The value at a name of the table.
pub(crate) fn value_at<'a>(table: &'a Table, name: &str) -> Option<&'a Value>
    ensures { option_map (λ v. view v.now) result ≡ get_member name.now (table_view table.now) }
{
    table.get(name)
}

// The number at a name, if it is in the range.
fn number_in(table: &Table, name: &str, low: u64, high: u64) -> Option<u64>
    ensures value { result ≡ option_and_then (number_in low high) (get_member name.now (table_view table.now)) }
    ensures within { IfSome result (λ n. (low ≤ n) × (n ≤ high)) }
{
    number(value_at(table, name)?, low, high)
}

// The bytes at a name, in hex digits.
fn bytes_in<const N: usize>(table: &Table, name: &str) -> Option<[u8; N]>
    ensures { result ≡ option_and_then (bytes_of N) (get_member name.now (table_view table.now)) }
{
    bytes(value_at(table, name)?)
}

// The type of the upper tree, which a key of two levels needs.
fn top_in(table: &Table, two: bool) -> Option<Option<u32>>
    ensures { result ≡ top_in two (table_view table.now) }
{
    if two {
        Some(Some(number_in(table, "top", 5, 7)? as u32))
    } else {
        Some(None)
    }
}

/// Whether a table has a type of an upper tree, of any kind and range.
pub(crate) fn names_top(table: &Table) -> bool
    ensures { result ≡ names_top (table_view table.now) }
{
    value_at(table, "top").is_some()
}

/// The values of a key of one level or of two in a table, if each of them is there and of its kind and range.
pub(crate) fn key_fields_at(table: &Table, two: bool) -> Option<KeyData>
    ensures { result ≡ key_fields two (table_view table.now) }
{
    let _version = number_in(table, "version", 1, 1)?;
    Some(KeyData {
        id: bytes_in::<8>(table, "id")?,
        party: number_in(table, "party", 0, MOST_PEERS)? as u16,
        rounds: number_in(table, "rounds", 1, rounds_by(two))? as u32,
        lms: number_in(table, "lms", 5, last_lms_by(two))? as u32,
        ots: number_in(table, "ots", first_ots_by(two), 4)? as u32,
        top: top_in(table, two)?,
        secret: bytes_in::<32>(table, "secret")?,
        spent: value_at(table, "spent")?.as_bool()?,
    })
}
