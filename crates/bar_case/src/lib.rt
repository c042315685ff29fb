//! Briefcases: the items that a side of an exchange promises, sealed under a key, and the result of opening them with a key.
#![tactic(auto)]

mod cipher;
mod findings;
mod items;
pub mod laws;
mod sealing;
mod unsealing;

pub use findings::{Finding, Opening};
pub use sealing::seal;
pub use unsealing::unseal;
