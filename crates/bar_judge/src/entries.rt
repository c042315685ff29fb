//! The first entry of a table file.
ghost use Rattle.std.specs.Prelude.{◌≡◌};
ghost use Rattle.bar_judge.specs.TableFile.{first_of, sized_first};
ghost use Rattle.bar_judge.specs.Code.TableViews.{plain_first};

use bar_bytes::split_u16;

/// What some bytes begin with: nothing if there are none, an entry, which is the bytes of a MANIFEST, with what follows it, or no entry.
#[derive(Clone, Copy)]
pub enum First<'a> {
    NoByte,
    Entry(&'a [u8], &'a [u8]),
    NoEntry,
}

/// The first `len` bytes, and what follows them.
fn sized_first(len: u16, rest: &[u8]) -> First<'_>
    ensures { plain_first result ≡ sized_first len rest.now }
{
    let len = usize::from(len);
    if len > rest.len() {
        return First::NoEntry;
    }
    let (manifest, rest) = rest.split_at(len);
    First::Entry(manifest, rest)
}

/// The first entry of some bytes.
#[tactic(auto, unfolding(crate::specs::TableFile::first_of))]
pub fn first_of(bytes: &[u8]) -> First<'_>
    ensures { plain_first result ≡ first_of bytes.now }
{
    if bytes.is_empty() {
        return First::NoByte;
    }
    if bytes.len() < 2 {
        return First::NoEntry;
    }
    let (len, rest) = split_u16(bytes);
    sized_first(len, rest)
}
