//! Tests of what peers remember, of whole peers and broadcasters, and of all parties together, through their public calls.
//!
//! They are in a crate of their own, because a crate with tests is proved twice.
#![tactic(auto)]

#[cfg(test)]
mod caster_tests;
#[cfg(test)]
mod keys;
#[cfg(test)]
mod ledger_tests;
#[cfg(test)]
mod peer_tests;
#[cfg(test)]
mod requests;
#[cfg(test)]
mod sends;
#[cfg(test)]
mod world_tests;
