//! Updates, windows (which are sets of updates), and the exchanges and terms that refer to them.
#![tactic(auto)]

mod blocks;
mod exchange;
pub mod laws;
mod limits;
mod terms;
mod update;
mod window;

pub use blocks::Blocks;
pub use exchange::{Exchange, Role, XKind};
pub use limits::{BLOCK_SIZE, JUNK_SIZE, LARGEST_CIPHER, MOST_ITEMS, MOST_LIFE};
pub use terms::Terms;
pub use update::UpdateId;
pub use window::{Listed, Window};
