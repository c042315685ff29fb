//! The content that a block plays.

ghost use Rattle.std.specs.Prelude.{◌≡◌, option_to_list, option_copied};
ghost use Rattle.std.specs.List.{flat_map};
ghost use Rattle.bar_rules.specs.Peer.Ticks.{content_of};
ghost use Rattle.bar_store.specs.Code.Held.{block_in};

use crate::store::Store;
use bar_window::{BLOCK_SIZE, UpdateId};
use bar_wire::LARGEST_CONTENT;

/// The content of a block, or `None` if its length is above the largest one.
fn content_of(block: &[u8; BLOCK_SIZE]) -> Option<&[u8]>
    ensures { option_to_list (option_copied result) ≡ content_of block.now }
{
    let len = 256 * usize::from(block[0]) + usize::from(block[1]);
    if len > LARGEST_CONTENT {
        return None;
    }
    Some(&block[2..2 + len])
}

impl Store {
    /// The content of an update, or `None` if it isn't held or its length is above the largest one.
    pub fn played(&self, round: u32, index: u8) -> Option<&[u8]>
        ensures { option_to_list (option_copied result) ≡
            flat_map content_of (option_to_list (block_in self.now (record { round = round; index = index }))) }
    {
        content_of(self.kept(UpdateId { round, index })?)
    }
}
