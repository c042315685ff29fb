//! Reading the files with which commands begin: a session's text and a party's key.
#![tactic(auto)]

mod texts;

pub use texts::{read_fresh_key, read_key, read_session};
