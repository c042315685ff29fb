//! The simulation of a seed.
ghost use Rattle.std.specs.Prelude.{◌≡◌, ℕ, [], length, slice_get, unwrap_or, IfOk};
ghost use Rattle.bar_world.specs.Code.Kept.{IsReady};
ghost use Rattle.bar_world.specs.Network.{begun};
ghost use Rattle.bar_world.specs.Code.Playing.{IsPlaying};
ghost use Rattle.bar_world.specs.Code.Shown.{IsEnd, SparesHonest};
ghost use Rattle.bar_world.specs.Sim.{game, sim};

use crate::laws::{honest_peers_stay, simulations_are_fair};
use crate::lies::Liar;
use crate::network::Network;
use crate::seeds::{draws, stream};
use crate::sim_end::SimEnd;
use crate::sim_session::{sim_keys, sim_session};
use crate::small_list::SmallList;
use crate::world::World;
use bar_case::laws::keystreams_have_their_length;
use bar_laws::own_runs::parties_run_alone;
use bar_lms::SecretKey;
use std::alloc::{AllocError, Global};
use std::collections::VecDeque;

/// How many ticks each party takes.
const TICKS: u32 = 120;

/// The party that lies.
const LIAR: usize = 5;

/// The network of a seed, before the first tick.
pub(crate) fn begin(alloc: Global, seed: u64) -> Result<Network, AllocError>
    ensures ready { IfOk result (λ network. IsReady network.world) }
    ensures plays { IfOk result (λ network. IsPlaying (game seed) (begun (game seed)) network) }
    ensures words { IfOk result (λ network. network.words.word_pos ≡ 20440) }
    ensures delivered { IfOk result (λ network. network.delivered ≡ 0) }
    ensures lost { IfOk result (λ network. network.lost ≡ 0) }
    ensures repeated { IfOk result (λ network. network.repeated ≡ 0) }
{
    simulations_are_fair();
    keystreams_have_their_length();
    let keys = sim_keys(alloc, seed)?;
    let session = sim_session(alloc, seed, &keys)?;
    let liar = keys[LIAR].secrets;
    let signer = SecretKey::make(alloc, session.params(), &liar.id, &liar.secret)?;
    let liar = Liar {
        party: liar.party,
        shape: session.shape(),
        signer,
    };
    let world = World::of_keys(alloc, &session, keys, stream(alloc, seed)?)?;
    Ok(Network {
        world,
        liar,
        queue: VecDeque::new(alloc),
        words: draws(seed),
        delivered: 0,
        lost: 0,
        repeated: 0,
    })
}

impl Network {
    /// How many bytes a party played; 0 if there is no such party.
    fn played_len(&self, party: usize) -> u64
        ensures { (seed : ℕ) → IsPlaying (game seed) (sim seed) self.now →
            result ≡ length (unwrap_or (slice_get (sim seed).world.played party) []) }
    {
        match self.world.played.get(party) {
            Some(bytes) => bytes.len() as u64,
            None => 0,
        }
    }

    /// The result of the simulation.
    fn end(&self) -> SimEnd
        ensures { (seed : ℕ) → IsPlaying (game seed) (sim seed) self.now → IsEnd seed result }
    {
        parties_run_alone();
        SimEnd {
            played: [
                self.played_len(1),
                self.played_len(2),
                self.played_len(3),
                self.played_len(4),
                self.played_len(5),
            ],
            delivered: self.delivered,
            lost: self.lost,
            repeated: self.repeated,
            evicted: SmallList::of(self.world.evicted()),
        }
    }
}

/// The simulation of a seed: a broadcaster and five peers over a network that loses, repeats and delays. Peer 5 lies. For every seed, none
/// of peers 1 to 4 is evicted.
pub fn simulate(alloc: Global, seed: u64) -> Result<SimEnd, AllocError>
    ensures end { IfOk result (λ end. IsEnd seed end) }
    ensures honest { IfOk result (λ end. SparesHonest end) }
{
    honest_peers_stay();
    let mut network = begin(alloc, seed)?;
    network.play(TICKS)?;
    Ok(network.end())
}
