//! Key files of sessions whose signatures have two levels.

ghost use Rattle.std.specs.Prelude.{◌≡◌, ◌≤◌, ◌⊎◌, Ok, Err, IfOk, IfErr, IsSome, Some};
ghost use Rattle.bar_lms.specs.declared.params.Height.{Height};
ghost use Rattle.bar_lms.specs.Schemes.{upper_types};
ghost use Rattle.bar_roster.specs.KeyFile.{fits, key_file_of};
ghost use Rattle.bar_session.specs.Fits.{key_in};
ghost use Rattle.bar_hss.specs.Pairs.{IsPair};

use crate::key::HssKey;
use bar_lms::Params;
use bar_roster::{KeyData, KeyFileFault, Session, read_key};
use bar_seeds::{Secrets, SeedChain};
use bar_wire::Shape;
use std::alloc::{AllocError, Global};

/// The contents of a key file of a party in a session whose signatures have two levels: its secret, its signing key and its seeds.
#[derive(Drop)]
pub struct HssKeyFile {
    pub secrets: Secrets,
    pub signer: HssKey,
    pub chain: SeedChain,
}

// The types of the session's upper tree.
fn upper_types(session: &Session) -> Params
    requires double { IsSome session.now.top }
    ensures value { (height : Height) → session.now.top ≡ Some height → result ≡ upper_types height session.now.params }
    ensures pair { IsPair result session.now.params }
{
    session.upper().unwrap()
}

impl HssKeyFile {
    ghost use Rattle.bar_hss.specs.Files.{IsHssKeyFileOf, IsHssMadeFor};

    // The keys of a party's secret in the session, computed from it.
    fn make(alloc: Global, session: &Session, key: &KeyData) -> Result<HssKeyFile, AllocError>
        requires double { IsSome session.now.top }
        ensures { IfOk result (λ k. IsHssMadeFor session.now key.now.party key.now.secret k) }
    {
        let Shape { id, rounds, .. } = session.shape();
        let KeyData { party, secret, .. } = *key;
        let signer = HssKey::make(alloc, upper_types(session), session.params(), &id, &secret)?;
        let chain = SeedChain::make(alloc, &id, party, rounds, &secret)?;
        let secrets = Secrets { id, party, secret };
        Ok(HssKeyFile {
            secrets,
            signer,
            chain,
        })
    }

    // The public key of the secret.
    fn public_in(&self, session: &Session) -> [u8; 60]
        requires made { IsHssMadeFor session.now self.now.secrets.party self.now.secrets.secret self.now }
        requires double { IsSome session.now.top }
        ensures { result ≡ key_in session.now self.now.secrets.secret }
    {
        let _ = session;
        self.signer.public()
    }

    // Whether the session holds the public key of the secret, and for a peer also its anchor.
    fn fits(&self, session: &Session) -> bool
        requires party { self.now.secrets.party ≤ session.now.shape.peers }
        requires made { IsHssMadeFor session.now self.now.secrets.party self.now.secrets.secret self.now }
        requires double { IsSome session.now.top }
        ensures { result ≡ fits session.now self.now.secrets.party self.now.secrets.secret }
    {
        let public = self.public_in(session);
        session.holds(self.secrets.party, &public, &self.chain.anchor())
    }

    /// Reads the key text of a party of the session, whose signatures have two levels: the broadcaster's or a peer's, as asked for, and a
    /// fresh one if that is asked for. It reports the first fault.
    pub fn read(
        alloc: Global,
        bytes: &[u8],
        session: &Session,
        caster: bool,
        fresh: bool,
    ) -> Result<HssKeyFile, KeyFileFault>
        requires double { IsSome session.now.top }
        ensures ok { IfOk result (λ k. key_file_of session.now caster fresh bytes.now ≡ Ok k.secrets) }
        ensures err { IfErr result (λ e. (e ≡ KeyFileFault.NoMemory) ⊎ (key_file_of session.now caster fresh bytes.now ≡ Err e)) }
        ensures fits { IfOk result (IsHssKeyFileOf session.now caster) }
    {
        let key = read_key(alloc, bytes, session, caster)?;
        let file = HssKeyFile::make(alloc, session, &key)?;
        if !file.fits(session) {
            return Err(KeyFileFault::NotInRoster);
        }
        if key.spent && fresh {
            return Err(KeyFileFault::Spent);
        }
        Ok(file)
    }
}
