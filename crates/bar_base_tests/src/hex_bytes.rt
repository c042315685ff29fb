//! Texts of hex, decoded.
use std::test::Fail;

/// The bytes of a text of hex.
pub fn bytes<const N: usize>(text: &str) -> Result<[u8; N], Fail> {
    let mut bytes = [0u8; N];
    hex::decode_to_slice(text, &mut bytes)?;
    Ok(bytes)
}
