//! Balanced exchanges: which of their datagrams a peer admits and what it answers.
#![tactic(auto)]

mod admission;
mod divulge;
mod keeping;
mod known;
mod reply_table;
mod rows;
mod saying;
mod worth;
mod writing;

pub use admission::admit;
pub use keeping::keep;
pub use reply_table::replies;
pub use saying::{say_request, say_response};
pub use writing::write;
