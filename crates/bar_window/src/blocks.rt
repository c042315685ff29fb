ghost use Rattle.std.specs.Prelude.{◌≡◌, ℕ, List, Option, Some, IsSome};
ghost use Rattle.bar_window.specs.declared.update.UpdateId.{UpdateId};

use crate::limits::BLOCK_SIZE;
use crate::update::UpdateId;

/// Blocks of updates that are held.
pub trait Blocks {
    /// The block of each update that is held.
    ghost block_of: { Self → UpdateId → Option (List ℕ) };

    /// The block of an update that is held: its length, content and zeros, 1,024 bytes.
    fn block(&self, id: UpdateId) -> &[u8; BLOCK_SIZE]
        requires { IsSome (block_of self.now id) }
        ensures { block_of self.now id ≡ Some result.now };
}
