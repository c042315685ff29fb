//! The text of a key, written.

ghost use Rattle.std.specs.Prelude.{◌≡◌, IfOk, Ok, false, is_some, string_bytes};
ghost use Rattle.hex.specs.Hex.{IsBytes, encode_lower};
ghost use Rattle.bar_roster.specs.KeyText.{IsInRange, first_lines, key_data, key_read, key_text_of, last_lines, top_line};

use crate::KeyData;
use std::alloc::{AllocError, Global};

// The hex digits of bytes, in lower case.
fn hex_digits(alloc: Global, bytes: &[u8]) -> Result<String, AllocError>
    ensures value { IfOk result (λ text. string_bytes text ≡ encode_lower bytes.now) }
    ensures bytes { IsBytes bytes.now }
{
    hex::encode(alloc, bytes)
}

// The first six lines of a key text.
fn first_text(alloc: Global, id: &str, key: &KeyData) -> Result<String, AllocError>
    ensures { IfOk result (λ text. string_bytes text ≡ first_lines id.now key.now.party key.now.rounds key.now.lms key.now.ots) }
{
    let KeyData {
        party,
        rounds,
        lms,
        ots,
        ..
    } = *key;
    format!(in alloc;
        "version = 1\nid = \"{id}\"\nparty = {party}\nrounds = {rounds}\nlms = {lms}\nots = {ots}\n"
    )
}

// The line of the upper tree, if there is one.
fn top_text(alloc: Global, top: Option<u32>) -> Result<String, AllocError>
    ensures { IfOk result (λ text. string_bytes text ≡ top_line top) }
{
    match top {
        Some(top) => format!(in alloc; "top = {top}\n"),
        None => Ok(String::new(alloc)),
    }
}

// The last two lines.
fn last_text(alloc: Global, secret: &str, spent: bool) -> Result<String, AllocError>
    ensures { IfOk result (λ text. string_bytes text ≡ last_lines secret.now spent) }
{
    format!(in alloc; "secret = \"{secret}\"\nspent = {spent}\n")
}

impl KeyData {
    /// The text of a key: eight lines of TOML, or nine if signatures have two levels.
    ///
    /// If the numbers are in the ranges of a key text, the text is read back as this key.
    pub fn text(&self, alloc: Global) -> Result<Vec<u8>, AllocError>
        ensures text { IfOk result (λ text. text.items ≡ key_text_of self.now) }
        ensures reads_back { IsInRange self.now → IfOk result (λ text. key_read (is_some self.now.top) text.items ≡ Ok self.now) }
    {
        let id = hex_digits(alloc, self.id.as_slice())?;
        let secret = hex_digits(alloc, self.secret.as_slice())?;
        let mut text = first_text(alloc, id.as_str(), self)?;
        text.push_str(top_text(alloc, self.top)?.as_str())?;
        text.push_str(last_text(alloc, secret.as_str(), self.spent)?.as_str())?;
        Ok(text.into_bytes())
    }
}

/// The text of a party's key in the session with this id, whose signatures have one level: eight lines of TOML.
///
/// If the numbers are in the ranges of a key text, the text is read back as this key.
#[allow(clippy::too_many_arguments)]
pub fn key_text(
    alloc: Global,
    party: u16,
    id: &[u8; 8],
    rounds: u32,
    lms: u32,
    ots: u32,
    secret: &[u8; 32],
    spent: bool,
) -> Result<Vec<u8>, AllocError>
    ensures text { let k = key_data party id.now rounds lms ots secret.now spent in IfOk result (λ text. text.items ≡ key_text_of k) }
    ensures reads_back { let k = key_data party id.now rounds lms ots secret.now spent in IsInRange k →
        IfOk result (λ text. key_read false text.items ≡ Ok k) }
{
    let key = KeyData {
        party,
        id: *id,
        rounds,
        lms,
        ots,
        top: None,
        secret: *secret,
        spent,
    };
    key.text(alloc)
}
