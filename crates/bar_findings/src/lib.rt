//! What a party found, written to files: the manifests that it admitted, and the evidence that it keeps.
#![tactic(auto)]

mod evidence;
mod findings;
mod table;

pub use findings::write_findings;
