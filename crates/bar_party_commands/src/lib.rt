//! The commands that run over a link: `peer` and `broadcaster`.
#![tactic(auto)]

mod caster_command;
mod caster_laws;
mod caster_names;
mod ended;
mod peer_command;
mod peer_laws;
mod peer_names;
mod spending;
mod summaries;

pub use caster_command::broadcaster;
pub use caster_laws::{
    a_bound_broadcaster_has_spent_its_key, a_broadcaster_is_done,
    a_broadcaster_is_done_where_all_is_accepted, a_broadcaster_stands,
    a_refused_broadcaster_changes_nothing, only_its_files_are_changed_by_a_broadcaster,
};
pub use caster_names::CasterNames;
pub use ended::Ended;
pub use peer_command::peer;
pub use peer_laws::{
    a_bound_peer_has_spent_its_key, a_peer_is_done, a_peer_is_done_where_all_is_accepted,
    a_peer_stands, a_refused_peer_changes_nothing, only_its_files_are_changed_by_a_peer,
};
pub use peer_names::PeerNames;
