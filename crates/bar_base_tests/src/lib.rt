//! Tests of signatures, seals and the texts of sessions and keys, through their public calls.
//!
//! They are in a crate of their own, because a crate with tests is proved twice.
#![tactic(auto)]

#[cfg(test)]
mod bytes_tests;
#[cfg(test)]
mod case_tests;
#[cfg(test)]
mod hex_bytes;
#[cfg(test)]
mod hss_key_tests;
#[cfg(test)]
mod hss_tests;
#[cfg(test)]
mod key_tests;
#[cfg(test)]
mod lanes_tests;
#[cfg(test)]
mod lms_tests;
#[cfg(test)]
mod record_tests;
#[cfg(test)]
mod seal_tests;
#[cfg(test)]
mod seeds_tests;
#[cfg(test)]
mod session_tests;
#[cfg(test)]
mod terms_tests;
#[cfg(test)]
mod verifying;
#[cfg(test)]
mod window_tests;
#[cfg(test)]
mod windows;
#[cfg(test)]
mod wire_tests;
