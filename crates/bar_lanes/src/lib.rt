//! Kernels on vectors: hashes of eight messages side by side, and operators on rows of bytes and words.
#![tactic(auto)]

pub use bytes::xor_into;
pub use digests::Digests;
pub use eight::sha_eight;
pub use head::Heads;
pub use rounds::Words;
pub use tails::Tails;
pub use words::{and_not, count};

mod beginning;
mod bytes;
mod digests;
mod eight;
mod head;
mod late;
mod rounds;
mod state;
mod tails;
mod vectors;
mod words;
