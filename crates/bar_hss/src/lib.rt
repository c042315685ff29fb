//! HSS of two levels (RFC 8554, 6): the leaves of one tree sign the public keys of trees of 32 leaves, which sign messages. Also the scheme
//! and the key file of a session, of one level or of two.
#![tactic(auto)]

pub use chosen::{SessionScheme, SessionVerifier};
pub use key::HssKey;
pub use key_file::HssKeyFile;
pub use key_writer::hss_key_text;
pub use party_key::PartyKey;
pub use schemes::{HssScheme, HssVerifier};

mod acceptance;
mod chosen;
mod key;
mod key_file;
mod key_writer;
mod lower;
mod party_key;
mod schemes;
mod trees;
mod writing;
