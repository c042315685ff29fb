//! The key file of a party, of one level or of two.

ghost use Rattle.std.specs.Prelude.{◌≡◌, ◌⊎◌, Bool, None, Ok, Err, IfOk, IfErr, IsSome};
ghost use Rattle.bar_roster.specs.KeyFile.{IsKeyFileOf, key_file_of};
ghost use Rattle.bar_session.specs.SessionData.{SessionData};

use crate::chosen::SessionScheme;
use crate::key_file::HssKeyFile;
use crate::schemes::HssScheme;
use bar_roster::{KeyFile, KeyFileFault, Session};
use bar_seal::LmsScheme;
use bar_seeds::{Secrets, SeedChain};
use std::alloc::Global;

/// The contents of a party's key file: its secret, its seeds, and the scheme that signs for it.
#[derive(Drop)]
pub struct PartyKey {
    pub secrets: Secrets,
    pub chain: SeedChain,
    pub scheme: SessionScheme,
}

impl PartyKey {
    ghost use Rattle.bar_hss.specs.Files.{IsHssKeyFileOf, IsPartyKeyOf};

    /// The keys of a key file of one level.
    pub fn single(file: KeyFile) -> PartyKey
        ensures secrets { result.secrets ≡ file.secrets }
        ensures fits { (s : SessionData) (caster : Bool) → s.top ≡ None → IsKeyFileOf s caster file → IsPartyKeyOf s caster result }
    {
        let KeyFile {
            secrets,
            signer,
            chain,
        } = file;
        PartyKey {
            secrets,
            chain,
            scheme: SessionScheme::Single(LmsScheme::new(signer)),
        }
    }

    /// The keys of a key file of two levels.
    pub fn double(file: HssKeyFile) -> PartyKey
        ensures secrets { result.secrets ≡ file.secrets }
        ensures fits { (s : SessionData) (caster : Bool) → IsSome s.top → IsHssKeyFileOf s caster file → IsPartyKeyOf s caster result }
    {
        let HssKeyFile {
            secrets,
            signer,
            chain,
        } = file;
        PartyKey {
            secrets,
            chain,
            scheme: SessionScheme::Double(HssScheme::new(signer)),
        }
    }

    /// Reads the key text of a party of the session, by the levels of its signatures: the broadcaster's or a peer's, as asked for, and a
    /// fresh one if that is asked for. It reports the first fault.
    pub fn read(
        alloc: Global,
        bytes: &[u8],
        session: &Session,
        caster: bool,
        fresh: bool,
    ) -> Result<PartyKey, KeyFileFault>
        ensures ok { IfOk result (λ k. key_file_of session.now caster fresh bytes.now ≡ Ok k.secrets) }
        ensures err { IfErr result (λ e. (e ≡ KeyFileFault.NoMemory) ⊎ (key_file_of session.now caster fresh bytes.now ≡ Err e)) }
        ensures fits { IfOk result (IsPartyKeyOf session.now caster) }
    {
        match session.top() {
            None => {
                let file = KeyFile::read(alloc, bytes, session, caster, fresh)?;
                Ok(PartyKey::single(file))
            }
            Some(_) => {
                let file = HssKeyFile::read(alloc, bytes, session, caster, fresh)?;
                Ok(PartyKey::double(file))
            }
        }
    }
}
