//! The items of a briefcase as bytes.

ghost use Rattle.std.specs.Prelude.{◌≡◌};
ghost use Rattle.bar_case.specs.Items.{item_len, junk_key, junk_item};

use crate::cipher::keystream;
use bar_bytes::tagged_hash;
use bar_terms::Item;
use bar_window::{BLOCK_SIZE, Exchange, JUNK_SIZE};

/// How many bytes an item has.
pub(crate) fn item_len(item: &Item) -> usize
    ensures { result ≡ item_len item.now }
{
    match item {
        Item::Update(_) => BLOCK_SIZE,
        Item::Junk(_) => JUNK_SIZE,
    }
}

/// The key of the junk of an exchange.
#[tactic(auto, unfolding(crate::specs::Items::junk_key))]
pub(crate) fn junk_key(id: &[u8; 8], x: &Exchange) -> [u8; 32]
    ensures { result ≡ junk_key id.now x.now }
{
    tagged_hash(b"JNK1", id, &x.bytes())
}

/// A piece of junk by its number.
pub(crate) fn junk_item(key: &[u8; 32], number: u8) -> [u8; JUNK_SIZE]
    ensures { result ≡ junk_item key.now number }
{
    let mut junk = [0; JUNK_SIZE];
    keystream(key, JUNK_SIZE / 4 * usize::from(number), &mut junk);
    junk
}
