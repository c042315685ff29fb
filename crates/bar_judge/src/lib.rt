//! The judge: what one or two datagrams show of their signer under a table, and table files.
#![tactic(auto)]

mod briefcase;
mod choice;
mod entries;
mod fault;
mod finding;
mod given_key;
mod judging;
pub mod laws;
mod leaves;
mod listing;
mod one;
mod opening;
mod pair;
mod reading;
mod table_fault;
mod verdicts;
mod why;
mod words;
mod writing;

pub use briefcase::{Briefcase, briefcase_of};
pub use entries::{First, first_of};
pub use fault::Fault;
pub use finding::found;
pub use judging::verdict;
pub use listing::list_after;
pub use pair::{Pair, is_accepted, read_all, read_view};
pub use reading::read_table;
pub use table_fault::TableFault;
pub use verdicts::Verdict;
pub use why::Why;
pub use writing::add_entry;
