//! The choice of a partner by a seed.

ghost use Rattle.std.specs.Prelude.{◌≡◌, ◌≤◌, ◌≢◌, ◌++◌, take, codes};
ghost use Rattle.std.specs.Int.{w64, from_be_bytes};
ghost use Rattle.bar_bytes.specs.Bytes.{u8_bytes};
ghost use Rattle.bar_bytes.specs.Tag.{tagged};
ghost use Rattle.bar_window.specs.Exchange.{kind_code};
ghost use Rattle.bar_seeds.specs.Partners.{number_of, partner_of};

use bar_bytes::{Tagged, split_u64};
use bar_window::XKind;

// The number of a hash's first eight bytes, the highest byte first.
fn first_number(hash: &[u8; 32]) -> u64
    ensures { result ≡ from_be_bytes w64 (take 8 hash.now) }
{
    let (number, _) = split_u64(hash);
    number
}

// The hash that chooses a partner.
fn choice_hash(id: &[u8; 8], seed: &[u8; 32], kind: XKind) -> [u8; 32]
    ensures { result ≡ tagged (codes "PRT1") id.now (seed.now ++ u8_bytes (kind_code kind)) }
{
    let mut hash = Tagged::new(b"PRT1", id);
    hash.add(seed);
    hash.add(&[kind.code()]);
    hash.finish()
}

// The number that a seed gives for an exchange of a kind.
fn number(id: &[u8; 8], seed: &[u8; 32], kind: XKind) -> u64
    ensures { result ≡ number_of id.now seed.now kind }
{
    first_number(&choice_hash(id, seed, kind))
}

/// The partner that a seed gives a peer for an exchange of a kind: one of the peers 1 to `peers` other than itself.
#[tactic(auto, unfolding(crate::specs::Partners::partner_of))]
pub fn partner(id: &[u8; 8], seed: &[u8; 32], kind: XKind, me: u16, peers: u16) -> u16
    requires peers { 2 ≤ peers }
    requires low { 1 ≤ me }
    requires high { me ≤ peers }
    ensures value { result ≡ partner_of id.now peers seed.now kind me }
    ensures low { 1 ≤ result }
    ensures high { result ≤ peers }
    ensures other { result ≢ me }
{
    let place = (number(id, seed, kind) % u64::from(peers - 1)) as u16;
    if place + 1 < me { place + 1 } else { place + 2 }
}
