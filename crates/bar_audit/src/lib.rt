//! The auditor: which exchanges of recorded parties are balanced.
#![tactic(auto)]

mod adding;
mod audit;
mod balance;
mod fault;
mod findings;
mod giving;
mod kept;
pub mod laws;
mod line;
mod recorded;
mod recording;
mod side;
mod taking;
mod telling;

pub use audit::Audit;
pub use fault::AuditFault;
pub use line::Line;
