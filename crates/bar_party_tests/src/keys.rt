//! Keys of parties, for tests of peers and broadcasters.
ghost use Rattle.std.specs.Prelude.{IfOk};
ghost use Rattle.bar_hss.specs.Files.{IsPartyKeyOf};

use bar_hss::PartyKey;
use bar_roster::{Session, key_text};
use bar_samples::sessions::ID;
use std::alloc::{AllocError, Global};
use std::test::Fail;

/// 32 equal bytes.
pub fn equal_bytes(byte: u8) -> [u8; 32] {
    [byte; 32]
}

/// The fresh key text of a session's party, whose secret is 32 times one byte.
fn text_of(
    alloc: Global,
    session: &Session,
    party: u16,
    secret: u8,
) -> Result<Vec<u8>, AllocError> {
    let rounds = session.shape().rounds;
    let params = session.params();
    let (lms, ots) = (params.lms(), params.ots());
    key_text(
        alloc,
        party,
        &ID,
        rounds,
        lms,
        ots,
        &equal_bytes(secret),
        false,
    )
}

/// The key of that text, of a broadcaster or of a peer.
pub fn key_of(
    alloc: Global,
    session: &Session,
    party: u16,
    secret: u8,
    caster: bool,
) -> Result<PartyKey, Fail>
    ensures { IfOk result (IsPartyKeyOf session.now caster) }
{
    let text = text_of(alloc, session, party, secret)?;
    Ok(PartyKey::read(alloc, &text, session, caster, false)?)
}
