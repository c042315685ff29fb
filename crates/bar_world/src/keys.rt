//! The key files of parties.
ghost use Rattle.std.specs.Prelude.{◌≡◌, IfOk};
ghost use Rattle.bar_world.specs.Keys.{key_by, keys_by};

use bar_lms::{Params, SecretKey};
use bar_roster::KeyFile;
use bar_seeds::{Secrets, SeedChain};
use std::alloc::{AllocError, Global};

/// The key file of a party, with seeds for `rounds` rounds.
fn key_of(
    alloc: Global,
    params: Params,
    rounds: u32,
    secrets: &Secrets,
) -> Result<KeyFile, AllocError>
    ensures { IfOk result (λ key. key ≡ key_by params rounds secrets.now) }
{
    let signer = SecretKey::make(alloc, params, &secrets.id, &secrets.secret)?;
    let chain = SeedChain::make(alloc, &secrets.id, secrets.party, rounds, &secrets.secret)?;
    Ok(KeyFile {
        secrets: *secrets,
        signer,
        chain,
    })
}

/// The key files of parties, in the order of their secrets. This is the most expensive part of a simulation.
pub fn keys_of(
    alloc: Global,
    params: Params,
    rounds: u32,
    secrets: &[Secrets],
) -> Result<Vec<KeyFile>, AllocError>
    ensures { IfOk result (λ keys. keys.items ≡ keys_by params rounds secrets.now) }
{
    let mut keys = Vec::new(alloc);
    for who in secrets {
        keys.push(key_of(alloc, params, rounds, who)?)?;
    }
    Ok(keys)
}
