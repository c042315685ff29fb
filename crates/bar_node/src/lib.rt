//! Runs of a core: over a link, as a peer or a broadcaster, and over a recording.
#![tactic(auto)]

mod arrivals;
mod buffer;
mod counts;
mod found;
mod giving;
mod kept;
mod laws;
mod outlet;
mod paths;
mod recorded;
mod running;
mod sending;
mod showing;
mod summary;
mod turn;

pub use laws::{
    a_part_of_a_peer_kept, a_part_of_a_run_sent, a_peer_keeps, a_run_changes_its_files,
    a_run_finds, a_run_sends, a_run_touches_its_files, a_run_writes_its_findings,
    a_stopped_peer_kept, a_stopped_run_sent, a_whole_peer_kept, a_whole_run_sent,
};
pub use paths::Paths;
pub use recorded::replay;
pub use running::{run_caster, run_peer};
pub use summary::Summary;
