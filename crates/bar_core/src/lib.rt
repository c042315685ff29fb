//! What a peer and a broadcaster have in common: rules, a memory that represents the inputs taken, evidence in rooms, and what is still to
//! be sent.
#![tactic(auto)]

mod cores;
mod evidence;
mod orders;

pub use cores::Core;
pub use evidence::keep_evidence;
pub use orders::Orders;
