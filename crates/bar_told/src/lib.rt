//! A history of calls that only proofs read: what an object of the system was asked for, and how it answered.
#![tactic(auto)]

mod log;

pub use log::{Log, Note};
