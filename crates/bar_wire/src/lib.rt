//! The datagrams of a session, as bytes.
#![tactic(auto)]

mod bodies;
mod entries;
mod evidence;
mod exchange;
mod fault;
mod fields;
mod header;
mod input;
mod kind;
mod laws;
mod lengths;
mod limits;
mod place;
mod ranges;
mod reading;
mod shape;
mod terms;
mod view;
mod windows;
mod writing;

pub use bodies::is_peer_kind;
pub use evidence::{EvidenceView, split_evidence};
pub use fault::WireFault;
pub use input::Input;
pub use kind::Kind;
pub use laws::{
    a_datagram_has_one_spelling, bytes_spell_one, no_spelling_begins_another,
    the_datagram_is_spelled, the_test_tells_a_datagram,
};
pub use limits::{
    BROADCASTER, EVERYONE, HEADER_LEN, LARGEST_CONTENT, LARGEST_DATAGRAM, LEAVES_A_ROUND,
    SEATS_A_ROUND,
};
pub use place::{Place, exchange_by, place_of};
pub use reading::decode;
pub use shape::Shape;
pub use view::{Body, View};
pub use writing::{encode, kind_of};
