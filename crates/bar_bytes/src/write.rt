//! Bytes that are written one after another.

ghost use Rattle.std.specs.Prelude.{◌≡◌, ◌+◌, ◌<◌, ◌≤◌, ◌++◌, ◌↔◌, [], length, OnOk, OnErr, IsErr, drop};
ghost use Rattle.bar_bytes.specs.Bytes.{u8_bytes, u16_bytes, u32_bytes};
ghost use Rattle.bar_bytes.specs.Code.Putting.{Appends};

/// Writes the bytes at offset `at`, and returns the offset after them.
pub fn put(out: &mut [u8], at: usize, bytes: &[u8]) -> usize
    requires { at + length bytes.now ≤ length out.old }
    ensures { Appends out.old at bytes.now out.new result }
{
    let end = at + bytes.len();
    out[at..end].copy_from_slice(bytes);
    end
}

/// Writes a byte at offset `at`, and returns the offset after it.
pub fn put_u8(out: &mut [u8], at: usize, number: u8) -> usize
    requires { at + 1 ≤ length out.old }
    ensures writes { Appends out.old at (u8_bytes number) out.new result }
    ensures end { result ≡ at + 1 }
{
    put(out, at, &[number])
}

/// Writes a number in two bytes at offset `at`, the highest byte first, and returns the offset after them.
#[tactic(auto, unfolding(crate::specs::Bytes::u16_bytes))]
pub fn put_u16(out: &mut [u8], at: usize, number: u16) -> usize
    requires { at + 2 ≤ length out.old }
    ensures writes { Appends out.old at (u16_bytes number) out.new result }
    ensures end { result ≡ at + 2 }
{
    put(out, at, &number.to_be_bytes())
}

/// Writes a number in four bytes at offset `at`, the highest byte first, and returns the offset after them.
#[tactic(auto, unfolding(crate::specs::Bytes::u32_bytes))]
pub fn put_u32(out: &mut [u8], at: usize, number: u32) -> usize
    requires { at + 4 ≤ length out.old }
    ensures writes { Appends out.old at (u32_bytes number) out.new result }
    ensures end { result ≡ at + 4 }
{
    put(out, at, &number.to_be_bytes())
}

/// The bytes don't fit.
#[derive(Clone, Copy, Debug, PartialEq, Eq)]
pub struct Full;

/// A slice that is written from its front.
#[derive(Drop)]
pub struct Writer<'a> {
    out: &'a mut [u8],
    len: usize,
    ghost fit: { len ≤ length out.now },
}

impl<'a> Writer<'a> {
    ghost use Rattle.bar_bytes.specs.Code.Written.{written, unwritten};

    /// A writer to this slice. Nothing is written yet.
    pub fn new(out: &'a mut [u8]) -> Writer<'a>
        ensures same_slice { result.out.ghost_name ≡ out.entry.ghost_name }
        ensures written { written result ≡ [] }
        ensures unwritten { unwritten result ≡ out.old }
    {
        Writer { out, len: 0 }
    }

    /// Writes these bytes after those that were put before.
    pub fn put(&mut self, bytes: &[u8]) -> Result<(), Full>
        ensures same_slice { self.new.out.ghost_name ≡ self.old.out.ghost_name }
        ensures ok { OnOk result (written self.new ≡ written self.old ++ bytes.now) }
        ensures rest { OnOk result (unwritten self.new ≡ drop (length bytes.now) (unwritten self.old)) }
        ensures err { OnErr result (written self.new ≡ written self.old) }
        ensures err_rest { OnErr result (unwritten self.new ≡ unwritten self.old) }
        ensures full { IsErr result ↔ (length (unwritten self.old) < length bytes.now) }
    {
        if self.out.len() - self.len < bytes.len() {
            return Err(Full);
        }
        self.len = put(self.out, self.len, bytes);
        Ok(())
    }

    /// How many bytes were put.
    pub fn len(&self) -> usize
        ensures { result ≡ length (written self.now) }
    {
        self.len
    }
}
