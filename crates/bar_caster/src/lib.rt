//! The broadcaster of a session: what it signs and sends of its stream, and whom it evicts.
#![tactic(auto)]

mod announcing;
mod as_core;
mod caster;
mod digests;
mod evictions;
mod fanout;
mod fault;
mod giving;
mod item;
mod memory;
mod of_key;
mod order;
mod runs;
mod sending;
mod signing;
mod starting;
mod steps;
mod stream;
mod taking;
mod ticks;
mod told;

pub use caster::Caster;
pub use fault::CasterFault;
pub use runs::rules_give_the_run;
