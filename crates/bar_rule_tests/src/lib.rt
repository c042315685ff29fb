//! Tests of stores, the judge, table files, proof files, findings and the auditor, through their public calls.
//!
//! They are in a crate of their own, because a crate with tests is proved twice.
#![tactic(auto)]

#[cfg(test)]
mod audit_tests;
#[cfg(test)]
mod findings_tests;
#[cfg(test)]
mod proof_tests;
#[cfg(test)]
mod store_tests;
#[cfg(test)]
mod table_tests;
#[cfg(test)]
mod verdict_tests;
