//! Seeds in hash chains, the choice of partners by seeds, and what a party derives from its secret.
#![tactic(auto)]

mod chain;
mod checkpoints;
mod choice;
pub mod laws;
mod secrets;

pub use chain::{SeedChain, seed_ok};
pub use checkpoints::{Checkpoints, KeptSeed};
pub use choice::partner;
pub use secrets::{Secrets, commitment};
