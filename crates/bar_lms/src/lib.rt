//! LMS signatures (RFC 8554) with SHA-256 and 32-byte hashes.
#![tactic(auto)]

pub use acceptance::{number_at, verify};
pub use key::{KeyFault, PublicKey};
pub use laws::{
    acceptance_is_tested, acceptance_under_types_is_tested, hss_acceptance_is_tested,
    hss_accepted_names_its_leaves, hss_signed_is_accepted, keys_are_tested, signed_is_accepted,
};
pub use params::{BadType, Height, Ots, Params};
pub use place::Place;
pub use remembered::Remembered;
pub use secret::SecretKey;
pub use trees::{fill_tree, public_key, sign_tree, sign_tree_at};

mod acceptance;
mod all_chains;
mod bytes;
mod chain_values;
mod chains;
mod digits;
mod domains;
mod groups;
mod key;
mod laws;
mod legs;
mod order;
mod params;
mod place;
mod private;
mod remembered;
mod secret;
mod signing;
mod tree;
mod trees;
