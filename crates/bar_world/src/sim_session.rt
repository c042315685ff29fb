//! The session of a simulation.
ghost use Rattle.std.specs.Prelude.{◌≡◌, None, IfOk};
ghost use Rattle.bar_world.specs.Code.Held.{all_held};
ghost use Rattle.bar_world.specs.Keys.{keys_by};
ghost use Rattle.bar_world.specs.Sim.{numbers, setup, shape};

use crate::keys::keys_of;
use crate::numbers::Numbers;
use crate::seeds::all_secrets;
use crate::sessions::session;
use bar_lms::{Height, Ots, Params};
use bar_roster::{KeyFile, Session};
use bar_wire::Shape;
use std::alloc::{AllocError, Global};

/// LMS type 6 and LM-OTS type 3. The port and the length of a tick aren't used.
const NUMBERS: Numbers = Numbers {
    cap: 4,
    fanout: 2,
    port: 1024,
    tick_ms: 1,
    params: Params {
        height: Height::H10,
        ots: Ots::W4,
    },
};

/// The shape of the session. Its id is the seed.
#[tactic(auto, unfolding(bar_bytes::specs::Bytes::u64_bytes))]
fn shape(seed: u64) -> Shape
    ensures { result ≡ shape seed }
{
    Shape {
        version: 1,
        id: seed.to_be_bytes(),
        peers: 5,
        rounds: 10,
        life: 4,
        per_round: 8,
        sig_len: NUMBERS.params.sig_len(),
    }
}

/// The key files of the parties.
pub(crate) fn sim_keys(alloc: Global, seed: u64) -> Result<Vec<KeyFile>, AllocError>
    ensures { IfOk result (λ keys. keys.items ≡ keys_by numbers.params (shape seed).rounds (all_held seed)) }
{
    keys_of(
        alloc,
        NUMBERS.params,
        shape(seed).rounds,
        &all_secrets(seed),
    )
}

/// The session, made from the key files of its parties.
pub(crate) fn sim_session(alloc: Global, seed: u64, keys: &[KeyFile]) -> Result<Session, AllocError>
    requires { keys.now ≡ keys_by numbers.params (shape seed).rounds (all_held seed) }
    ensures value { IfOk result (λ s. s ≡ (setup seed).session) }
    ensures single { IfOk result (λ s. s.top ≡ None) }
{
    session(alloc, shape(seed), NUMBERS, keys)
}
