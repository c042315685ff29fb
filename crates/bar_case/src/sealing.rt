//! Sealing a briefcase.

ghost use Rattle.std.specs.Prelude.{◌≡◌, ◌+◌, ◌%◌, ◌≤◌, ◌++◌, true, length, take, drop, All, IsSome};
ghost use Rattle.bar_window.specs.Limits.{largest_cipher, most_items};
ghost use Rattle.bar_window.specs.Terms.{plain_terms};
ghost use Rattle.bar_terms.specs.Code.Windows.{AreAligned};
ghost use Rattle.bar_terms.specs.Terms.{can_promise, promised_updates};
ghost use Rattle.bar_case.specs.Keystream.{keystream, xor_bytes};
ghost use Rattle.bar_case.specs.Items.{item_len, items_len, item_bytes, plaintext, promised_len};
ghost use Rattle.bar_case.specs.Sealed.{sealed, IsHeldItem};

use crate::cipher::crypt;
use crate::items::{junk_item, junk_key};
use bar_terms::{Item, promise};
use bar_window::{Blocks, Exchange, Role, Terms};

/// Seals the bytes of an item at an offset, and returns the offset after them.
fn seal_bytes(key: &[u8; 32], at: usize, bytes: &[u8], out: &mut [u8]) -> usize
    requires word { at % 4 ≡ 0 }
    requires room { at + length bytes.now ≤ length out.old }
    ensures end { result ≡ at + length bytes.now }
    ensures value { take result out.new ≡ take at out.old ++ xor_bytes bytes.now (drop at (keystream key.now result)) }
    ensures rest { drop result out.new ≡ drop result out.old }
{
    let end = at + bytes.len();
    crypt(key, at, bytes, &mut out[at..end]);
    end
}

/// Seals an item at an offset, and returns the offset after it.
fn seal_item<B: Blocks>(
    item: &Item,
    junk: &[u8; 32],
    key: &[u8; 32],
    blocks: &B,
    at: usize,
    out: &mut [u8],
) -> usize
    requires held { IsHeldItem (B.block_of blocks.now) item.now }
    requires word { at % 4 ≡ 0 }
    requires room { at + item_len item.now ≤ length out.old }
    ensures end { result ≡ at + item_len item.now }
    ensures long { length (item_bytes junk.now (B.block_of blocks.now) item.now) ≡ item_len item.now }
    ensures value { take result out.new ≡ take at out.old ++
        xor_bytes (item_bytes junk.now (B.block_of blocks.now) item.now) (drop at (keystream key.now result)) }
    ensures rest { drop result out.new ≡ drop result out.old }
{
    match item {
        Item::Update(update) => seal_bytes(key, at, blocks.block(*update), out),
        Item::Junk(number) => seal_bytes(key, at, &junk_item(junk, *number), out),
    }
}

/// Seals items, one after another from the beginning, and returns their length.
fn seal_items<B: Blocks>(
    items: &[Item],
    junk: &[u8; 32],
    key: &[u8; 32],
    blocks: &B,
    out: &mut [u8],
) -> usize
    requires held { All (IsHeldItem (B.block_of blocks.now)) items.now }
    requires room { items_len items.now ≤ length out.old }
    ensures len { result ≡ items_len items.now }
    ensures plain { length (plaintext junk.now (B.block_of blocks.now) items.now) ≡ result }
    ensures value { take result out.new ≡ xor_bytes (plaintext junk.now (B.block_of blocks.now) items.now) (keystream key.now result) }
    ensures rest { drop result out.new ≡ drop result out.old }
{
    let mut at = 0;
    for item in items {
        at = seal_item(item, junk, key, blocks, at, out);
    }
    at
}

/// Seals the items that a side of an exchange promises by its terms, writes the cipher to the beginning of `out`, and returns its length in
/// bytes.
///
/// The plaintext is the promised items in order: the block of each update, 1,024 bytes, and 1,280 bytes of each piece of junk. Piece t of
/// an exchange has the bytes from 1,280 t on of the ChaCha20 keystream (RFC 8439, 2.3) under the tagged hash of the exchange's name. The
/// cipher is the plaintext XOR the keystream under the key.
pub fn seal<B: Blocks>(
    id: &[u8; 8],
    x: Exchange,
    terms: &Terms,
    role: Role,
    cap: u8,
    key: &[u8; 32],
    blocks: &B,
    out: &mut [u8],
) -> usize
    requires windows { AreAligned terms.now }
    requires valid { can_promise cap (plain_terms terms.now) ≡ true }
    requires cap { cap ≤ most_items }
    requires held { All (λ u. IsSome (B.block_of blocks.now u)) (promised_updates cap (plain_terms terms.now) role) }
    requires room { largest_cipher ≤ length out.old }
    ensures len { result ≡ promised_len cap (plain_terms terms.now) role }
    ensures fits { result ≤ largest_cipher }
    ensures value { take result out.new ≡ sealed id.now x cap (plain_terms terms.now) role key.now (B.block_of blocks.now) }
    ensures rest { drop result out.new ≡ drop result out.old }
{
    let promise = promise(terms, role, cap);
    let items = &promise.items[..usize::from(promise.len)];
    seal_items(items, &junk_key(id, &x), key, blocks, out)
}
