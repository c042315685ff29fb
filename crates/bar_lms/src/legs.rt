//! The legs of the chains of a leaf: the steps that are to be computed of each.

ghost use Rattle.std.specs.Prelude.{◌≡◌, ℕ, ◌<◌, [], List, slice_index, slice_index_or};
ghost use Rattle.bar_lms.specs.Code.Lanes.{leg_of, leg_at};

/// A hash of each chain, by its number. There is room for the most chains that a key has.
pub(crate) type Row = [[u8; 32]; 265];

/// A byte of each chain, by its number.
pub(crate) type Bytes = [u8; 265];

/// The leg of each chain: its first value is in `starts`, the number of its first step in `from`, and how many steps it has in `counts`.
#[derive(Drop)]
pub(crate) struct Legs {
    pub starts: Row,
    pub from: Bytes,
    pub counts: Bytes,
}

/// The legs of eight chains with these numbers, as in `Legs`.
#[derive(Drop)]
pub(crate) struct Eight {
    pub numbers: [u16; 8],
    pub starts: [[u8; 32]; 8],
    pub from: [u8; 8],
    pub counts: [u8; 8],
}

// The hashes with eight numbers.
fn eight_hashes(all: &Row, numbers: &[u16; 8]) -> [[u8; 32]; 8]
    requires { (j : ℕ) → j < 8 → slice_index numbers.now j < 265 }
    ensures { (j : ℕ) → j < 8 → slice_index_or result j [] ≡ slice_index_or all.now (slice_index numbers.now j) [] }
{
    let mut hashes = [[0u8; 32]; 8];
    'fill: for j in 0..8 {
        hashes[j] = all[numbers[j] as usize];
    }
    hashes
}

// The bytes with eight numbers.
fn eight_bytes(all: &Bytes, numbers: &[u16; 8]) -> [u8; 8]
    requires { (j : ℕ) → j < 8 → slice_index numbers.now j < 265 }
    ensures { (j : ℕ) → j < 8 → slice_index result j ≡ slice_index all.now (slice_index numbers.now j) }
{
    let mut bytes = [0u8; 8];
    'fill: for j in 0..8 {
        bytes[j] = all[numbers[j] as usize];
    }
    bytes
}

/// The legs of the chains with eight numbers.
pub(crate) fn eight_legs(legs: &Legs, numbers: [u16; 8]) -> Eight
    requires { (j : ℕ) → j < 8 → slice_index numbers j < 265 }
    ensures numbers { result.numbers ≡ numbers }
    ensures legs { (ident : List ℕ) (q j : ℕ) → j < 8 → leg_of ident q result j ≡ leg_at ident q legs.now (slice_index numbers j) }
{
    let starts = eight_hashes(&legs.starts, &numbers);
    let from = eight_bytes(&legs.from, &numbers);
    let counts = eight_bytes(&legs.counts, &numbers);
    Eight {
        numbers,
        starts,
        from,
        counts,
    }
}
