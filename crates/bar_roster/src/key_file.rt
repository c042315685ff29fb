//! Key files.

ghost use Rattle.std.specs.Prelude.{◌≡◌, ◌≤◌, ◌⊎◌, None, Ok, Err, IfOk, IfErr};
ghost use Rattle.bar_roster.specs.KeyFile.{fits, key_file_of};
ghost use Rattle.bar_session.specs.Fits.{key_in};

use crate::key_reading::read_key;
use crate::{KeyData, KeyFileFault, Session};
use bar_lms::SecretKey;
use bar_seeds::{Secrets, SeedChain};
use bar_wire::Shape;
use std::alloc::{AllocError, Global};

/// What a party of a session whose signatures have one level holds: its secret, its signing key and its seeds.
#[derive(Drop)]
pub struct KeyFile {
    pub secrets: Secrets,
    pub signer: SecretKey,
    pub chain: SeedChain,
}

impl KeyFile {
    ghost use Rattle.bar_roster.specs.KeyFile.{IsMadeFor, IsKeyFileOf};

    // The keys derived from a party's secret in the session.
    fn make(alloc: Global, session: &Session, key: &KeyData) -> Result<KeyFile, AllocError>
        ensures { IfOk result (λ k. IsMadeFor session.now key.now.party key.now.secret k) }
    {
        let Shape { id, rounds, .. } = session.shape();
        let KeyData { party, secret, .. } = *key;
        let signer = SecretKey::make(alloc, session.params(), &id, &secret)?;
        let chain = SeedChain::make(alloc, &id, party, rounds, &secret)?;
        let secrets = Secrets { id, party, secret };
        Ok(KeyFile {
            secrets,
            signer,
            chain,
        })
    }

    // The public key derived from the secret.
    fn public_in(&self, session: &Session) -> [u8; 56]
        requires made { IsMadeFor session.now self.now.secrets.party self.now.secrets.secret self.now }
        requires single { session.now.top ≡ None }
        ensures { result ≡ key_in session.now self.now.secrets.secret }
    {
        let _ = session;
        self.signer.public()
    }

    // Whether the session holds the public key, and for a peer the anchor, derived from the secret.
    fn fits(&self, session: &Session) -> bool
        requires party { self.now.secrets.party ≤ session.now.shape.peers }
        requires made { IsMadeFor session.now self.now.secrets.party self.now.secrets.secret self.now }
        requires single { session.now.top ≡ None }
        ensures { result ≡ fits session.now self.now.secrets.party self.now.secrets.secret }
    {
        let public = self.public_in(session);
        session.holds(self.secrets.party, &public, &self.chain.anchor())
    }

    /// Reads the key text of a party of the session, whose signatures have one level. The party must be the broadcaster or a peer, as asked
    /// for, and the key must be fresh if a fresh one is asked for. It reports the first fault.
    pub fn read(
        alloc: Global,
        bytes: &[u8],
        session: &Session,
        caster: bool,
        fresh: bool,
    ) -> Result<KeyFile, KeyFileFault>
        requires single { session.now.top ≡ None }
        ensures ok { IfOk result (λ k. key_file_of session.now caster fresh bytes.now ≡ Ok k.secrets) }
        ensures err { IfErr result (λ e. (e ≡ KeyFileFault.NoMemory) ⊎ (key_file_of session.now caster fresh bytes.now ≡ Err e)) }
        ensures fits { IfOk result (IsKeyFileOf session.now caster) }
    {
        let key = read_key(alloc, bytes, session, caster)?;
        let file = KeyFile::make(alloc, session, &key)?;
        if !file.fits(session) {
            return Err(KeyFileFault::NotInRoster);
        }
        if key.spent && fresh {
            return Err(KeyFileFault::Spent);
        }
        Ok(file)
    }
}
