//! Parsing of numbers and ids.
ghost use Rattle.std.specs.Prelude.{◌≡◌, ◌≤◌, IfSome};
ghost use Rattle.std.specs.Char.{is_ascii_digit};
ghost use Rattle.std.specs.List.{list_all};
ghost use Rattle.bar_arguments.specs.Numbers.{id_of, is_numeral, number_in};

use hex::FromHex;

/// Whether all bytes are ASCII digits.
fn are_digits(bytes: &[u8]) -> bool
    ensures { result ≡ list_all is_ascii_digit bytes.now }
{
    bytes.iter().all(|byte| byte.is_ascii_digit())
}

/// Whether the bytes are a decimal number: only digits, and at least one.
fn is_numeral(bytes: &[u8]) -> bool
    ensures { result ≡ is_numeral bytes.now }
{
    match bytes {
        [] => false,
        [_, ..] => are_digits(bytes),
    }
}

/// The number that an argument represents, if it is in the range.
pub fn number_in(word: &str, low: u64, high: u64) -> Option<u64>
    ensures value { result ≡ number_in low high word.now }
    ensures within { IfSome result (λ n. (low ≤ n) × (n ≤ high)) }
{
    if !is_numeral(word.as_bytes()) {
        return None;
    }
    match word.parse::<u64>() {
        Ok(number) if low <= number && number <= high => Some(number),
        _ => None,
    }
}

/// The eight bytes that sixteen hex digits encode.
pub fn id_of(word: &str) -> Option<[u8; 8]>
    ensures { result ≡ id_of word.now }
{
    <[u8; 8] as FromHex>::from_hex(word).ok()
}
