//! What a peer remembers of its exchanges: what it said and heard in each, in rooms that are allocated at the start.
#![tactic(auto)]

mod deadlines;
mod entry;
mod exchanges;
mod known;
mod ledger;
mod recall;
mod sizes;
mod slot;
mod totals;

pub use deadlines::{ANSWER_DEADLINE, REQUEST_DEADLINE, is_within};
pub use entry::Entry;
pub use exchanges::opening_kind;
pub use ledger::Ledger;
pub use slot::names;
pub use totals::Totals;
