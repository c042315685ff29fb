ghost use Rattle.std.specs.Prelude.{◌≡◌, option_copied};
ghost use Rattle.bar_store.specs.Code.Rooms.{block_if};

use bar_window::{BLOCK_SIZE, UpdateId};

/// A held block, and its update.
#[derive(Clone, Copy, Debug)]
pub struct KeptBlock {
    pub id: UpdateId,
    pub block: [u8; BLOCK_SIZE],
}

/// The block in a room, if it is that of the update.
pub(crate) fn block_if(id: UpdateId, room: &Option<KeptBlock>) -> Option<&[u8; BLOCK_SIZE]>
    ensures { option_copied result ≡ block_if id room.now }
{
    let kept = room.as_ref()?;
    (id == kept.id).then_some(&kept.block)
}
