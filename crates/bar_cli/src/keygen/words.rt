//! The arguments of `keygen` and `hsskeygen`.
ghost use Rattle.std.specs.Prelude.{◌≤◌};
ghost use Rattle.bar_session.specs.Limits.{most_long_rounds};

use crate::keygen::key_types::KeyTypes;

/// The key of a party in a session, the file that contains its secret, and the key file.
#[derive(Clone, Copy, Debug)]
pub struct KeygenWords<'a> {
    pub party: u16,
    pub id: [u8; 8],
    pub rounds: u32,
    pub types: KeyTypes,
    pub secret: &'a str,
    pub key: &'a str,
    ghost in_range: { rounds ≤ most_long_rounds },
}
