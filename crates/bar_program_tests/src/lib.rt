//! Tests of nodes, child programs and command lines, over an outside in memory.
//!
//! They are in a crate of their own, because a crate with tests is proved twice.
#![tactic(auto)]

#[cfg(test)]
mod argument_tests;
#[cfg(test)]
mod child_process_tests;
#[cfg(test)]
mod cli_tests;
#[cfg(test)]
mod failing_tests;
#[cfg(test)]
mod keygen_tests;
#[cfg(test)]
mod outcome;
#[cfg(test)]
mod outside_tests;
#[cfg(test)]
mod party_command_tests;
#[cfg(test)]
mod session_tests;
