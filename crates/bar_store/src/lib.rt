//! What a peer holds: the updates of a stream, in rooms that are allocated when they are made; and the sizes of rooms.
#![tactic(auto)]

mod added;
mod kept_block;
mod picks;
mod played;
mod sizes;
mod store;
mod windows;

pub use added::Added;
pub use sizes::{largest_evict, largest_manifest, most_evidence};
pub use store::Store;
