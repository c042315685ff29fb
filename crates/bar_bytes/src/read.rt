//! Reads of bytes from the front of a slice.

ghost use Rattle.std.specs.Prelude.{◌≡◌, ℕ, ◌+◌, ◌<◌, ◌≤◌, ◌++◌, ◌↔◌, List, length, drop, IfOk, IsErr, OnOk, OnErr};
ghost use Rattle.bar_bytes.specs.Bytes.{u8_bytes, u16_bytes, u32_bytes, u64_bytes, first_u16};

use std::marker::Model;

/// The first byte, and what follows it.
pub fn split_u8(bytes: &[u8]) -> (u8, &[u8])
    requires { 1 ≤ length bytes.now }
    ensures is { bytes.now ≡ u8_bytes result.0 ++ result.1.now }
    ensures rest { length result.1.now + 1 ≡ length bytes.now }
{
    (bytes[0], &bytes[1..])
}

/// The first two bytes as a number, the highest byte first, and what follows them.
#[tactic(auto, unfolding(crate::specs::Bytes::u16_bytes))]
pub fn split_u16(bytes: &[u8]) -> (u16, &[u8])
    requires { 2 ≤ length bytes.now }
    ensures is { bytes.now ≡ u16_bytes result.0 ++ result.1.now }
    ensures number { result.0 ≡ first_u16 bytes.now }
    ensures after { result.1.now ≡ drop 2 bytes.now }
    ensures rest { length result.1.now + 2 ≡ length bytes.now }
{
    let (front, rest) = bytes.split_at(2);
    let number = u16::from_be_bytes([front[0], front[1]]);
    (number, rest)
}

/// The first four bytes as a number, the highest byte first, and what follows them.
#[tactic(auto, unfolding(crate::specs::Bytes::u32_bytes))]
pub fn split_u32(bytes: &[u8]) -> (u32, &[u8])
    requires { 4 ≤ length bytes.now }
    ensures is { bytes.now ≡ u32_bytes result.0 ++ result.1.now }
    ensures rest { length result.1.now + 4 ≡ length bytes.now }
{
    let (front, rest) = bytes.split_at(4);
    let number = u32::from_be_bytes([front[0], front[1], front[2], front[3]]);
    (number, rest)
}

/// The first eight bytes as a number, the highest byte first, and what follows them.
#[tactic(auto, unfolding(crate::specs::Bytes::u64_bytes))]
pub fn split_u64(bytes: &[u8]) -> (u64, &[u8])
    requires { 8 ≤ length bytes.now }
    ensures is { bytes.now ≡ u64_bytes result.0 ++ result.1.now }
    ensures rest { length result.1.now + 8 ≡ length bytes.now }
{
    let (front, rest) = bytes.split_at(8);
    let number = u64::from_be_bytes([
        front[0], front[1], front[2], front[3], front[4], front[5], front[6], front[7],
    ]);
    (number, rest)
}

/// The first `N` bytes, and what follows them.
pub fn split_array<const N: usize>(bytes: &[u8]) -> (&[u8; N], &[u8])
    requires { N ≤ length bytes.now }
    ensures is { bytes.now ≡ result.0.now ++ result.1.now }
    ensures rest { length result.1.now + N ≡ length bytes.now }
    ensures front { length result.0.now ≡ N }
{
    bytes.split_first_chunk().unwrap()
}

/// Too few bytes remain.
#[derive(Clone, Copy, Debug, PartialEq, Eq)]
pub struct Short;

/// A slice that is read from its front. Contracts see the bytes that remain.
#[derive(Drop)]
pub struct Reader<'a> {
    left: &'a [u8],
}

impl<'a> Model for Reader<'a> {
    ghost Value = { List ℕ };

    ghost view = { λ r. r.left.now };
}

impl<'a> Reader<'a> {
    /// A reader of all of these bytes.
    pub fn new(bytes: &'a [u8]) -> Reader<'a>
        ensures { result ≡ bytes.now }
    {
        Reader { left: bytes }
    }

    /// The next byte.
    pub fn u8(&mut self) -> Result<u8, Short>
        ensures ok { IfOk result (λ n. self.old ≡ u8_bytes n ++ self.new) }
        ensures left { OnOk result (length self.new + 1 ≡ length self.old) }
        ensures err { OnErr result (self.new ≡ self.old) }
        ensures short { IsErr result ↔ (length self.old < 1) }
    {
        if self.left.is_empty() {
            return Err(Short);
        }
        let (number, rest) = split_u8(self.left);
        self.left = rest;
        Ok(number)
    }

    /// The next two bytes as a number, the highest byte first.
    pub fn u16(&mut self) -> Result<u16, Short>
        ensures ok { IfOk result (λ n. self.old ≡ u16_bytes n ++ self.new) }
        ensures left { OnOk result (length self.new + 2 ≡ length self.old) }
        ensures err { OnErr result (self.new ≡ self.old) }
        ensures short { IsErr result ↔ (length self.old < 2) }
    {
        if self.left.len() < 2 {
            return Err(Short);
        }
        let (number, rest) = split_u16(self.left);
        self.left = rest;
        Ok(number)
    }

    /// The next four bytes as a number, the highest byte first.
    pub fn u32(&mut self) -> Result<u32, Short>
        ensures ok { IfOk result (λ n. self.old ≡ u32_bytes n ++ self.new) }
        ensures left { OnOk result (length self.new + 4 ≡ length self.old) }
        ensures err { OnErr result (self.new ≡ self.old) }
        ensures short { IsErr result ↔ (length self.old < 4) }
    {
        if self.left.len() < 4 {
            return Err(Short);
        }
        let (number, rest) = split_u32(self.left);
        self.left = rest;
        Ok(number)
    }

    /// The next eight bytes as a number, the highest byte first.
    pub fn u64(&mut self) -> Result<u64, Short>
        ensures ok { IfOk result (λ n. self.old ≡ u64_bytes n ++ self.new) }
        ensures left { OnOk result (length self.new + 8 ≡ length self.old) }
        ensures err { OnErr result (self.new ≡ self.old) }
        ensures short { IsErr result ↔ (length self.old < 8) }
    {
        if self.left.len() < 8 {
            return Err(Short);
        }
        let (number, rest) = split_u64(self.left);
        self.left = rest;
        Ok(number)
    }

    /// The next `n` bytes.
    pub fn take(&mut self, n: usize) -> Result<&'a [u8], Short>
        ensures ok { IfOk result (λ bytes. self.old ≡ bytes.now ++ self.new) }
        ensures len { IfOk result (λ bytes. length bytes.now ≡ n) }
        ensures left { OnOk result (length self.new + n ≡ length self.old) }
        ensures err { OnErr result (self.new ≡ self.old) }
        ensures short { IsErr result ↔ (length self.old < n) }
    {
        if self.left.len() < n {
            return Err(Short);
        }
        let (front, rest) = self.left.split_at(n);
        self.left = rest;
        Ok(front)
    }

    /// How many bytes remain.
    pub fn rest(&self) -> usize
        ensures { result ≡ length self.now }
    {
        self.left.len()
    }
}
