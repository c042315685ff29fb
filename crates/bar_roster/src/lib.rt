//! The texts of a session and of a key.
#![tactic(auto)]

mod choices;
mod fault;
mod fields;
mod holding;
mod key_fault;
mod key_fields;
mod key_file;
mod key_reading;
mod key_writer;
mod keys;
pub mod laws;
mod numbers;
mod parties;
mod session;
mod text;
mod time;
mod types;

pub use fault::{Key, SessionFault};
pub use key_fault::KeyFileFault;
pub use key_fields::KeyData;
pub use key_file::KeyFile;
pub use key_reading::read_key;
pub use key_writer::key_text;
pub use numbers::{MOST_LONG_ROUNDS, MOST_PEERS, MOST_ROUNDS};
pub use session::Session;
pub use time::{SLOTS_A_ROUND, round_after, slot_after};
pub use types::{check_leaves, leaves_of};
