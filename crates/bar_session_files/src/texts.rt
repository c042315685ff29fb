//! Reading a session's text and a key text.
ghost use Rattle.std.specs.Prelude.{◌≡◌, ◌⊎◌, Ok, Err, IfOk, IfErr, false};
ghost use Rattle.bar_hss.specs.Files.{IsPartyKeyOf};
ghost use Rattle.bar_session_files.specs.Accepting.{fresh_key_of, secrets_of_key, session_of};

use bar_hss::PartyKey;
use bar_roster::{KeyFileFault, Session, SessionFault};
use std::alloc::Global;

/// The session that a text encodes.
#[tactic(auto, unfolding(crate::specs::Accepting::session_of))]
pub fn read_session(alloc: Global, text: &[u8]) -> Result<Session, SessionFault>
    ensures ok { IfOk result (λ session. session_of text.now ≡ Ok session) }
    ensures err { IfErr result (λ fault. (fault ≡ SessionFault.NoMemory) ⊎ (session_of text.now ≡ Err fault)) }
{
    Session::read(alloc, text)
}

/// The fresh key of the session's broadcaster, or of one of its peers.
#[tactic(auto, unfolding(crate::specs::Accepting::fresh_key_of))]
pub fn read_fresh_key(
    alloc: Global,
    bytes: &[u8],
    session: &Session,
    caster: bool,
) -> Result<PartyKey, KeyFileFault>
    ensures ok { IfOk result (λ key. fresh_key_of caster session.now bytes.now ≡ Ok key.secrets) }
    ensures err { IfErr result (λ fault. (fault ≡ KeyFileFault.NoMemory) ⊎ (fresh_key_of caster session.now bytes.now ≡ Err fault)) }
    ensures fits { IfOk result (IsPartyKeyOf session.now caster) }
{
    PartyKey::read(alloc, bytes, session, caster, true)
}

/// The key of a peer of the session, spent or not.
#[tactic(auto, unfolding(crate::specs::Accepting::secrets_of_key))]
pub fn read_key(alloc: Global, bytes: &[u8], session: &Session) -> Result<PartyKey, KeyFileFault>
    ensures ok { IfOk result (λ key. secrets_of_key session.now bytes.now ≡ Ok key.secrets) }
    ensures err { IfErr result (λ fault. (fault ≡ KeyFileFault.NoMemory) ⊎ (secrets_of_key session.now bytes.now ≡ Err fault)) }
    ensures fits { IfOk result (IsPartyKeyOf session.now false) }
{
    PartyKey::read(alloc, bytes, session, false, false)
}
