//! A peer: what it knows, what it sends for each input, and what it plays.
#![tactic(auto)]

mod admission;
mod answers;
mod arrival;
mod as_core;
mod briefcases;
mod cases;
mod credentials;
mod evictions;
mod evidence;
mod face;
mod guard;
mod intake;
mod knowledge;
mod laws;
mod memory;
mod of_key;
mod order;
mod outgoing;
mod partners;
mod peer;
mod playing;
mod queue;
mod repeats;
mod reports;
mod saying;
mod search;
mod start;
mod steps;
mod ticks;
mod weighed;

pub use credentials::Credentials;
pub use laws::{admitted_datagrams_are_remembered, rules_give_the_run};
pub use peer::Peer;
