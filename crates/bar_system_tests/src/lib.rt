//! Tests of the files, the link and the child programs of the system, through their public calls.
//!
//! They are in a crate of their own, because a crate with tests is proved twice.
#![tactic(auto)]

#[cfg(test)]
mod endless_socket;
#[cfg(test)]
mod file_tests;
#[cfg(test)]
mod link_tests;
#[cfg(test)]
mod room_tests;
#[cfg(test)]
mod spawner_tests;
