//! The keys and anchors of a session text.
ghost use Rattle.std.specs.Prelude.{◌≡◌, ◌≤◌, ◌+◌, ◌⊎◌, [], ◌∷◌, codes, length, is_some, option_map, Some, None, IfOk, IfSome, IfErr, Ok, Err};
ghost use Rattle.std.specs.List.{list_all};
ghost use Rattle.toml.specs.Data.{as_table};
ghost use Rattle.toml.specs.View.{array_view, items_view, table_view, view};
ghost use Rattle.bar_roster.specs.Fields.{count_of, field, key_of, peers_of};
ghost use Rattle.bar_roster.specs.Held.{rows_of};
ghost use Rattle.bar_roster.specs.NumberRanges.{AreInRange};
ghost use Rattle.bar_session.specs.Limits.{most_peers};
ghost use Rattle.bar_roster.specs.SessionText.{front_of, listed_in, peer_of, peers_from};

use crate::fields::{bytes, bytes_at, needed};
use crate::keys::Keys;
use crate::numbers::{MOST_PEERS, Numbers};
use crate::{Key, SessionFault};
use std::alloc::Global;
use toml::value::Array;
use toml::{Table, Value};

/// The prefix of a public key of one level: both types, in four bytes each.
fn single_front(numbers: &Numbers) -> [u8; 8]
    requires { numbers.now.top ≡ None }
    ensures { result ≡ front_of numbers.now }
{
    [0, 0, 0, numbers.lms, 0, 0, 0, numbers.ots]
}

/// The prefix of a public key of two levels: their number, and the types of the upper tree.
fn double_front(numbers: &Numbers, top: u8) -> [u8; 12]
    requires { numbers.now.top ≡ Some top }
    ensures { result ≡ front_of numbers.now }
{
    [0, 0, 0, 2, 0, 0, 0, top, 0, 0, 0, numbers.ots]
}

/// The public key that a value encodes, if it has this prefix and is none of those before it.
fn public_key<const N: usize>(value: &Value, front: &[u8], earlier: &[[u8; N]]) -> Option<[u8; N]>
    requires { length front.now + 48 ≡ N }
    ensures { result ≡ key_of front.now earlier.now (view value.now) }
{
    let key = bytes::<N>(value)?;
    if key.starts_with(front) && !earlier.contains(&key) {
        Some(key)
    } else {
        None
    }
}

/// The broadcaster's key.
fn caster_key<const N: usize>(table: &Table, front: &[u8]) -> Result<[u8; N], SessionFault>
    requires { length front.now + 48 ≡ N }
    ensures { result ≡ field (key_of front.now []) Key.CasterKey (codes "key") (table_view table.now) }
{
    let value = needed(table, Key::CasterKey, "key")?;
    public_key(value, front, &[]).ok_or(SessionFault::BadValue(Key::CasterKey))
}

/// An entry of `peer`: its key and its anchor.
fn peer<const N: usize>(
    value: &Value,
    front: &[u8],
    earlier: &[[u8; N]],
) -> Result<([u8; N], [u8; 32]), SessionFault>
    requires front { length front.now + 48 ≡ N }
    requires few { length earlier.now ≤ most_peers }
    ensures { result ≡ peer_of front.now earlier.now (view value.now) }
{
    let table = value.as_table().ok_or(SessionFault::BadValue(Key::Peers))?;
    let number = earlier.len() as u16;
    let name = Key::PeerKey(number);
    let text = needed(table, name, "key")?;
    let key = public_key(text, front, earlier).ok_or(SessionFault::BadValue(name))?;
    let anchor = bytes_at::<32>(table, Key::PeerAnchor(number), "anchor")?;
    Ok((key, anchor))
}

/// The keys and the anchors of the peers, the broadcaster's key first.
fn peers<const N: usize>(
    alloc: Global,
    caster: [u8; N],
    front: &[u8],
    entries: &[Value],
) -> Result<(Vec<[u8; N]>, Vec<[u8; 32]>), SessionFault>
    requires front { length front.now + 48 ≡ N }
    requires few { length entries.now ≤ most_peers }
    ensures ok { IfOk result (λ p. peers_from front.now (caster.entry ∷ []) [] (items_view entries.now) ≡ Ok (p.0.items, p.1.items)) }
    ensures err { IfErr result (λ e. (e ≡ SessionFault.NoMemory)
        ⊎ (peers_from front.now (caster.entry ∷ []) [] (items_view entries.now) ≡ Err e)) }
    ensures counts { IfOk result (λ p. (length p.0.items ≡ length entries.now + 1) × (length p.1.items ≡ length entries.now)) }
{
    let mut keys = vec![in alloc; caster]?;
    let mut anchors = Vec::new(alloc);
    for entry in entries {
        let (key, anchor) = peer(entry, front, &keys)?;
        keys.push(key)?;
        anchors.push(anchor)?;
    }
    Ok((keys, anchors))
}

/// Whether each value is a table.
fn has_tables_alone(values: &[Value]) -> bool
    ensures { result ≡ list_all (λ v. is_some (as_table (view v))) values.now }
{
    values.iter().all(|value| value.is_table())
}

/// The entries of `peer`, if they are tables and there are 2 to 200 of them.
#[tactic(auto, using(crate::proofs::FieldLemmas::views))]
fn peer_entries(value: &Value) -> Option<&Array>
    ensures value { option_map (λ v. array_view v.now) result ≡ peers_of (view value.now) }
    ensures count { IfSome result (λ v. (count_of (array_view v.now) ≡ length v.now.items) × (2 ≤ length v.now.items) ×
        (length v.now.items ≤ most_peers)) }
{
    let entries = value.as_array()?;
    let count = entries.len();
    if 2 <= count && count <= MOST_PEERS as usize && has_tables_alone(entries) {
        Some(entries)
    } else {
        None
    }
}

/// The entries of `peer` in a table.
fn entries_at(table: &Table) -> Result<&Array, SessionFault>
    ensures ok { IfOk result (λ v. field peers_of Key.Peers (codes "peer") (table_view table.now) ≡ Ok (array_view v.now)) }
    ensures err { IfErr result (λ e. field peers_of Key.Peers (codes "peer") (table_view table.now) ≡ Err e) }
    ensures count { IfOk result (λ v. (count_of (array_view v.now) ≡ length v.now.items) × (2 ≤ length v.now.items) ×
        (length v.now.items ≤ most_peers)) }
{
    peer_entries(needed(table, Key::Peers, "peer")?).ok_or(SessionFault::BadValue(Key::Peers))
}

/// The keys and the anchors of a table, if its keys have this prefix.
fn rows_at<const N: usize>(
    alloc: Global,
    table: &Table,
    front: &[u8],
) -> Result<(Vec<[u8; N]>, Vec<[u8; 32]>, u16), SessionFault>
    requires { length front.now + 48 ≡ N }
    ensures ok { IfOk result (λ rows. listed_in front.now (table_view table.now) ≡ Ok (rows.0.items, rows.1.items, rows.2)) }
    ensures err { IfErr result (λ e. (e ≡ SessionFault.NoMemory) ⊎ (listed_in front.now (table_view table.now) ≡ Err e)) }
    ensures counts { IfOk result (λ rows. (length rows.0.items ≡ rows.2 + 1) × (length rows.1.items ≡ rows.2)
        × (2 ≤ rows.2) × (rows.2 ≤ most_peers)) }
{
    let caster = caster_key::<N>(table, front)?;
    let entries = entries_at(table)?;
    let (keys, anchors) = peers(alloc, caster, front, entries)?;
    Ok((keys, anchors, entries.len() as u16))
}

/// The keys and the anchors of a session whose numbers are read.
pub(crate) fn keys_at(
    alloc: Global,
    table: &Table,
    numbers: &Numbers,
) -> Result<(Keys, Vec<[u8; 32]>, u16), SessionFault>
    requires { AreInRange numbers.now }
    ensures ok { IfOk result (λ rows. listed_in (front_of numbers.now) (table_view table.now) ≡ Ok (rows_of rows.0, rows.1.items, rows.2)) }
    ensures err { IfErr result (λ e. (e ≡ SessionFault.NoMemory) ⊎ (listed_in (front_of numbers.now) (table_view table.now) ≡ Err e)) }
    ensures counts { IfOk result (λ rows. (length (rows_of rows.0) ≡ rows.2 + 1) × (length rows.1.items ≡ rows.2)
        × (2 ≤ rows.2) × (rows.2 ≤ most_peers)) }
{
    match numbers.top {
        None => {
            let front = single_front(numbers);
            let (keys, anchors, count) = rows_at::<56>(alloc, table, &front)?;
            Ok((Keys::Single(keys), anchors, count))
        }
        Some(top) => {
            let front = double_front(numbers, top);
            let (keys, anchors, count) = rows_at::<60>(alloc, table, &front)?;
            Ok((Keys::Double(keys), anchors, count))
        }
    }
}
