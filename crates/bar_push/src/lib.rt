//! Pushes: which of their datagrams a peer admits and what it answers.
#![tactic(auto)]

mod admission;
mod answer;
mod asking;
mod choosing;
mod keeping;
mod known;
mod offer;
mod reply_table;
mod saying;
mod writing;

pub use admission::admit;
pub use choosing::answer_to_offer;
pub use keeping::keep;
pub use reply_table::replies;
pub use saying::{say_query, say_reply};
pub use writing::write;
