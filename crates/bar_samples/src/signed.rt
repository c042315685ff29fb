//! Signed datagrams of the sample sessions, and evidence made of them.
use crate::sessions::ID;
use bar_lms::SecretKey;
use bar_roster::Session;
use bar_seal::{LmsScheme, Scheme, Verifier};
use std::alloc::{AllocError, Global};
use std::test::Fail;

/// A signature scheme with the types of a session, and 32 times one byte as its secret.
pub fn scheme_of(alloc: Global, session: &str, secret: u8) -> Result<LmsScheme, Fail> {
    let session = Session::read(alloc, session.as_bytes())?;
    let signer = SecretKey::make(alloc, session.params(), &ID, &[secret; 32])?;
    Ok(LmsScheme::new(signer))
}

/// The start of a datagram, up to its round.
pub fn front(alloc: Global, kind: u8, parties: [u8; 4], round: u8) -> Result<Vec<u8>, AllocError> {
    let mut bytes = [0xba, 0x47, 1, kind].to_vec(alloc)?;
    bytes.extend_from_slice(&ID)?;
    bytes.extend_from_slice(&parties)?;
    bytes.extend_from_slice(&[0, 0, 0, round])?;
    Ok(bytes)
}

/// Appends a message's signature under a leaf, or nothing if there is no such leaf.
pub fn sign(
    alloc: Global,
    scheme: &LmsScheme,
    leaf: u32,
    message: &mut Vec<u8>,
) -> Result<(), AllocError> {
    if leaf < scheme.leaves() {
        let mut sig = vec![in alloc; 0; scheme.sig_len()]?;
        scheme.sign(leaf, message, &mut sig);
        message.extend_from_slice(&sig)?;
    }
    Ok(())
}

/// Appends the length of a datagram, and the datagram.
pub fn add_entry(bytes: &mut Vec<u8>, datagram: &[u8]) -> Result<(), AllocError> {
    let len = u16::try_from(datagram.len()).unwrap_or(0);
    bytes.extend_from_slice(&len.to_be_bytes())?;
    bytes.extend_from_slice(datagram)
}

/// Evidence of one datagram, or of two.
pub fn evidence(alloc: Global, one: &[u8], two: Option<&[u8]>) -> Result<Vec<u8>, AllocError> {
    let count = if two.is_some() { 2 } else { 1 };
    let mut bytes = [count].to_vec(alloc)?;
    add_entry(&mut bytes, one)?;
    if let Some(two) = two {
        add_entry(&mut bytes, two)?;
    }
    Ok(bytes)
}

/// A message and its signature under a leaf.
pub fn signed(
    alloc: Global,
    scheme: &LmsScheme,
    leaf: u32,
    message: &[u8],
) -> Result<Vec<u8>, AllocError> {
    let mut bytes = message.to_vec(alloc)?;
    sign(alloc, scheme, leaf, &mut bytes)?;
    Ok(bytes)
}

/// A datagram with its last byte changed.
pub fn changed(alloc: Global, datagram: &[u8]) -> Result<Vec<u8>, AllocError> {
    let mut bytes = datagram.to_vec(alloc)?;
    if let Some(byte) = bytes.last_mut() {
        *byte ^= 1;
    }
    Ok(bytes)
}

/// Appends words of windows, each given by its lowest byte.
pub fn add_words(bytes: &mut Vec<u8>, words: &[u8]) -> Result<(), AllocError> {
    for word in words {
        bytes.extend_from_slice(&[0, 0, 0, 0, 0, 0, 0, *word])?;
    }
    Ok(())
}

/// A block with this length field and two bytes of content.
pub fn block_with(len: u16, content: [u8; 2]) -> [u8; 1024] {
    let mut block = [0u8; 1024];
    block[..2].copy_from_slice(&len.to_be_bytes());
    block[2..4].copy_from_slice(&content);
    block
}
