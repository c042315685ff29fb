//! Exact reads and writes of bytes, rooms for them, tagged hashes, and steps that are counted in proofs only.
#![tactic(auto)]

pub use read::{Reader, Short, split_array, split_u8, split_u16, split_u32, split_u64};
pub use room::Room;
pub use rooms::Rooms;
pub use steps::Steps;
pub use tagged::{Tagged, tagged_hash};
pub use write::{Full, Writer, put, put_u8, put_u16, put_u32};

mod read;
mod room;
mod rooms;
mod steps;
mod tagged;
mod write;
