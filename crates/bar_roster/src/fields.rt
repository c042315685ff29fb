//! Values of a TOML table, by kind and range.
ghost use Rattle.std.specs.Prelude.{◌≡◌, ◌≤◌, ◌⊎◌, IfOk, IfErr, IfSome, Some, None};
ghost use Rattle.toml.specs.Data.{get_member};
ghost use Rattle.toml.specs.View.{table_view, view};
ghost use Rattle.bar_roster.specs.Fields.{bytes_of, document, field, number_in};

use crate::{Key, SessionFault};
use hex::FromHex;
use std::alloc::Global;
use toml::{Table, Value};

/// The table that the bytes encode.
pub(crate) fn document_table(alloc: Global, bytes: &[u8]) -> Result<Table, SessionFault>
    ensures ok { IfOk result (λ t. document bytes.now ≡ Some (table_view t)) }
    ensures err { IfErr result (λ e. (e ≡ SessionFault.NoMemory) ⊎ ((e ≡ SessionFault.NotToml) × (document bytes.now ≡ None))) }
{
    match toml::table_from_slice(alloc, bytes) {
        Ok(table) => Ok(table),
        Err(error) => {
            if error.is_memory() {
                return Err(SessionFault::NoMemory);
            }
            Err(SessionFault::NotToml)
        }
    }
}

/// The number that a value is, if it is in the range.
pub(crate) fn number(value: &Value, low: u64, high: u64) -> Option<u64>
    ensures value { result ≡ number_in low high (view value.now) }
    ensures within { IfSome result (λ n. (low ≤ n) × (n ≤ high)) }
{
    let n = u64::try_from(value.as_integer()?).ok()?;
    if low <= n && n <= high { Some(n) } else { None }
}

/// The bytes that a value encodes in hex digits.
pub(crate) fn bytes<const N: usize>(value: &Value) -> Option<[u8; N]>
    ensures { result ≡ bytes_of N (view value.now) }
{
    <[u8; N] as FromHex>::from_hex(value.as_str()?).ok()
}

/// The value at a name of the table.
pub(crate) fn needed<'a>(table: &'a Table, key: Key, name: &str) -> Result<&'a Value, SessionFault>
    ensures there { IfOk result (λ v. get_member name.now (table_view table.now) ≡ Some (view v.now)) }
    ensures missing { IfErr result (λ e. (get_member name.now (table_view table.now) ≡ None) × (e ≡ SessionFault.Missing key)) }
{
    match table.get(name) {
        Some(value) => Ok(value),
        None => Err(SessionFault::Missing(key)),
    }
}

/// The number at a name of the table.
pub(crate) fn number_at(
    table: &Table,
    key: Key,
    name: &str,
    low: u64,
    high: u64,
) -> Result<u64, SessionFault>
    ensures value { result ≡ field (number_in low high) key name.now (table_view table.now) }
    ensures within { IfOk result (λ n. (low ≤ n) × (n ≤ high)) }
{
    number(needed(table, key, name)?, low, high).ok_or(SessionFault::BadValue(key))
}

/// The bytes at a name of the table.
pub(crate) fn bytes_at<const N: usize>(
    table: &Table,
    key: Key,
    name: &str,
) -> Result<[u8; N], SessionFault>
    ensures { result ≡ field (bytes_of N) key name.now (table_view table.now) }
{
    bytes(needed(table, key, name)?).ok_or(SessionFault::BadValue(key))
}
