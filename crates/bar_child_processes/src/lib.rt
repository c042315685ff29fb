//! The child programs of a session: they are started, waited for in the same order, and the status of each is printed.
#![tactic(auto)]

mod child;
mod family;
mod laws;
mod outcome;
mod report;
mod session_names;
mod words;

pub use family::run_children;
pub use laws::{
    a_done_session_has_children_that_ended_well, a_failed_output_is_counted,
    a_failed_session_has_a_child_that_failed, sessions_without_faults_are_told_by_their_children,
};
pub use outcome::Outcome;
pub use session_names::SessionNames;
