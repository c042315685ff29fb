//! Reading a key text for a session.

ghost use Rattle.std.specs.Prelude.{◌≡◌, ◌⊎◌, Some, None, Ok, Err, IfOk, IfErr, is_some};
ghost use Rattle.toml.specs.View.{table_view};
ghost use Rattle.bar_roster.specs.Fields.{document};
ghost use Rattle.bar_roster.specs.KeyFile.{is_of_session, session_key_of};
ghost use Rattle.bar_roster.specs.KeyText.{key_read};

use crate::fields::document_table;
use crate::key_fields::{KeyData, key_fields_at, names_top};
use crate::{KeyFileFault, Session, SessionFault};
use std::alloc::Global;
use toml::Table;

// The table that the bytes encode.
fn key_table(alloc: Global, bytes: &[u8]) -> Result<Table, KeyFileFault>
    ensures ok { IfOk result (λ t. document bytes.now ≡ Some (table_view t)) }
    ensures err { IfErr result (λ e. (e ≡ KeyFileFault.NoMemory) ⊎ ((e ≡ KeyFileFault.NotToml) × (document bytes.now ≡ None))) }
{
    match document_table(alloc, bytes) {
        Ok(table) => Ok(table),
        Err(SessionFault::NoMemory) => Err(KeyFileFault::NoMemory),
        Err(_) => Err(KeyFileFault::NotToml),
    }
}

// The key of one level or of two that the bytes encode.
fn key_data(alloc: Global, bytes: &[u8], two: bool) -> Result<KeyData, KeyFileFault>
    ensures ok { IfOk result (λ k. key_read two bytes.now ≡ Ok k) }
    ensures err { IfErr result (λ e. (e ≡ KeyFileFault.NoMemory) ⊎ (key_read two bytes.now ≡ Err e)) }
{
    let table = key_table(alloc, bytes)?;
    let key = key_fields_at(&table, two).ok_or(KeyFileFault::BadValue)?;
    if !two && names_top(&table) {
        return Err(KeyFileFault::NotInRoster);
    }
    Ok(key)
}

// Whether the numbers are the session's, and the party has the role that is asked for.
fn is_of_session(key: &KeyData, session: &Session, caster: bool) -> bool
    ensures { result ≡ is_of_session session.now caster key.now }
{
    let shape = session.shape();
    let params = session.params();
    key.id == shape.id
        && key.rounds == shape.rounds
        && key.lms == params.lms()
        && key.ots == params.ots()
        && key.top == session.top()
        && (if caster {
            key.party == 0
        } else {
            1 <= key.party
        })
        && key.party <= shape.peers
}

/// Reads a key text for the session, the broadcaster's or a peer's, as asked for. It reports the first fault, except faults of the public
/// key or of the key's use.
pub fn read_key(
    alloc: Global,
    bytes: &[u8],
    session: &Session,
    caster: bool,
) -> Result<KeyData, KeyFileFault>
    ensures ok { IfOk result (λ k. session_key_of session.now caster bytes.now ≡ Ok k) }
    ensures err { IfErr result (λ e. (e ≡ KeyFileFault.NoMemory) ⊎ (session_key_of session.now caster bytes.now ≡ Err e)) }
{
    let key = key_data(alloc, bytes, session.top().is_some())?;
    if is_of_session(&key, session, caster) {
        Ok(key)
    } else {
        Err(KeyFileFault::NotInRoster)
    }
}
