//! What a simulation derives from its seed.
ghost use Rattle.std.specs.Prelude.{◌≡◌, length, IfOk};
ghost use Rattle.rand_chacha.specs.ChaCha.{key_of};
ghost use Rattle.bar_case.specs.Keystream.{keystream};
ghost use Rattle.bar_world.specs.Code.Held.{all_held, held_by};
ghost use Rattle.bar_world.specs.Sim.{secret_of, source, stream};

use bar_seeds::Secrets;
use rand_chacha::ChaCha20Rng;
use rand_core::{Rng, SeedableRng};
use sha2::{Digest, Sha256};
use std::alloc::{AllocError, Global};

/// The length of the stream in bytes.
const STREAM_LEN: usize = 81_760;

/// The first word after those of the stream.
const FIRST_DRAWN: u128 = 20_440;

/// The secret of a party.
fn secret_of(seed: u64, party: u16) -> [u8; 32]
    ensures { result ≡ secret_of seed party }
{
    let mut hasher = Sha256::new();
    hasher.update(b"SIMS".as_slice());
    hasher.update(seed.to_be_bytes());
    hasher.update(party.to_be_bytes());
    hasher.finalize()
}

/// The secrets of a party.
#[tactic(auto, unfolding(bar_bytes::specs::Bytes::u64_bytes))]
fn secrets_of(seed: u64, party: u16) -> Secrets
    ensures { result ≡ held_by seed party }
{
    Secrets {
        id: seed.to_be_bytes(),
        party,
        secret: secret_of(seed, party),
    }
}

/// The secrets of the parties, the broadcaster's first.
pub(crate) fn all_secrets(seed: u64) -> [Secrets; 6]
    ensures { result ≡ all_held seed }
{
    [
        secrets_of(seed, 0),
        secrets_of(seed, 1),
        secrets_of(seed, 2),
        secrets_of(seed, 3),
        secrets_of(seed, 4),
        secrets_of(seed, 5),
    ]
}

/// The key of the ChaCha20 words for the stream and the draws.
#[tactic(auto, unfolding(crate::specs::Sim::source, bar_bytes::specs::Bytes::u64_bytes))]
fn source(seed: u64) -> [u8; 32]
    ensures { result ≡ source seed }
{
    let mut hasher = Sha256::new();
    hasher.update(b"SIMW".as_slice());
    hasher.update(seed.to_be_bytes());
    hasher.finalize()
}

/// Fills a slice with the keystream under a key.
fn fill(key: [u8; 32], out: &mut [u8])
    ensures { out.new ≡ keystream key (length out.old) }
{
    let mut words = ChaCha20Rng::from_seed(key);
    words.fill_bytes(out);
}

/// The first `len` bytes of the keystream under a key.
fn keystream(alloc: Global, key: [u8; 32], len: usize) -> Result<Vec<u8>, AllocError>
    ensures { IfOk result (λ bytes. bytes.items ≡ keystream key len) }
{
    let mut bytes = vec![in alloc; 0u8; len]?;
    fill(key, &mut bytes);
    Ok(bytes)
}

/// The broadcaster's stream.
#[tactic(auto, unfolding(crate::specs::Sim::stream))]
pub(crate) fn stream(alloc: Global, seed: u64) -> Result<Vec<u8>, AllocError>
    ensures { IfOk result (λ bytes. bytes.items ≡ stream seed) }
{
    keystream(alloc, source(seed), STREAM_LEN)
}

/// The numbers that are drawn.
pub(crate) fn draws(seed: u64) -> ChaCha20Rng
    ensures key { result.key ≡ key_of (source seed) }
    ensures stream { result.stream ≡ 0 }
    ensures place { result.word_pos ≡ 20440 }
{
    let mut words = ChaCha20Rng::from_seed(source(seed));
    words.set_word_pos(FIRST_DRAWN);
    words
}
