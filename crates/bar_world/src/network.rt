//! A network that loses, repeats and delays datagrams by drawn numbers.
ghost use Rattle.std.specs.Prelude.{◌≡◌, ℕ, ◌+◌, ◌*◌, ◌++◌, drop, OnOk};
ghost use Rattle.std.specs.List.{range_with_len};
ghost use Rattle.bar_rules.specs.World.World.{member};
ghost use Rattle.bar_world.specs.Code.Kept.{IsReady};
ghost use Rattle.bar_world.specs.Lies.{IsLiar};
ghost use Rattle.bar_world.specs.Code.Moves.{plain_move};
ghost use Rattle.bar_world.specs.Network.{Game, decided, deliveries, drained, moved, played_on, served, ticked};
ghost use Rattle.bar_world.specs.Code.Packets.{packets_of};
ghost use Rattle.bar_world.specs.Code.Playing.{AreAcceptedIn, HasCounts, HasWords, Plays, SameCounts, queue_of};

use crate::lies::Liar;
use crate::moves::Move;
use crate::packet::Packet;
use crate::world::World;
use bar_laws::parties::sent_is_accepted;
use rand_chacha::ChaCha20Rng;
use rand_core::utils::NextWord;
use std::alloc::{AllocError, Global};
use std::collections::VecDeque;

/// A world, with the deliveries that are under way.
#[derive(Drop)]
pub(crate) struct Network {
    pub world: World,
    pub liar: Liar,
    /// The deliveries that are still to be made.
    pub queue: VecDeque<Move>,
    /// The generator of the drawn numbers.
    pub words: ChaCha20Rng,
    pub delivered: u64,
    pub lost: u64,
    pub repeated: u64,
}

/// Appends the deliveries of the pool's datagrams, starting with number `from`, to the queue.
fn enqueue(
    alloc: Global,
    liar: &Liar,
    pool: &[Packet],
    from: usize,
    queue: &mut VecDeque<Move>,
) -> Result<(), AllocError>
    ensures { OnOk result ((game : Game) → IsLiar (member game.setup game.liar) liar.now →
        AreAcceptedIn game.setup.session (packets_of pool.now) →
        queue_of queue.new.items ≡ queue_of queue.old.items ++ deliveries game from (drop from (packets_of pool.now))) }
{
    for number in from..pool.len() {
        let entry = liar.delivery(alloc, number as u64, &pool[number])?;
        queue.push_back(entry)?;
    }
    Ok(())
}

/// The most entries of the queue that are served after a tick.
const MOST: u32 = 4096;

impl Network {
    /// A move happens, and the deliveries of what it sends are appended to the queue.
    fn make(&mut self, step: &Move) -> Result<(), AllocError>
        requires { IsReady self.old.world }
        ensures ready { OnOk result (IsReady self.new.world) }
        ensures plays { OnOk result (Plays (λ game play. moved game play (plain_move step.now)) self.old self.new) }
        ensures counts { OnOk result (SameCounts self.old self.new) }
    {
        let from = self.world.pool.len();
        self.world.happen(step)?;
        // the signatures in the pool name leaves
        sent_is_accepted();
        enqueue(
            self.world.alloc,
            &self.liar,
            &self.world.pool,
            from,
            &mut self.queue,
        )
    }

    /// Decides an entry by a drawn number: it is lost, delivered twice, or delivered once.
    fn decide(&mut self, entry: &Move, number: u32) -> Result<(), AllocError>
        requires ready { IsReady self.old.world }
        requires room { HasCounts 1 self.old }
        ensures ready { OnOk result (IsReady self.new.world) }
        ensures plays { OnOk result (Plays (λ game play. decided game play (plain_move entry.now) number) self.old self.new) }
        ensures words { OnOk result (self.new.words ≡ self.old.words) }
        ensures room { OnOk result ((n : ℕ) → HasCounts (n + 1) self.old → HasCounts n self.new) }
    {
        match number % 10 {
            0 => {
                self.lost += 1;
                Ok(())
            }
            1 => {
                self.delivered += 1;
                self.repeated += 1;
                self.make(entry)?;
                self.make(entry)
            }
            _ => {
                self.delivered += 1;
                self.make(entry)
            }
        }
    }

    /// Removes the first entry of the queue, if there is one, and draws a number that decides it.
    fn serve(&mut self) -> Result<(), AllocError>
        requires ready { IsReady self.old.world }
        requires words { HasWords 1 self.old }
        requires room { HasCounts 1 self.old }
        ensures ready { OnOk result (IsReady self.new.world) }
        ensures plays { OnOk result (Plays served self.old self.new) }
        ensures words { OnOk result ((n : ℕ) → HasWords (n + 1) self.old → HasWords n self.new) }
        ensures room { OnOk result ((n : ℕ) → HasCounts (n + 1) self.old → HasCounts n self.new) }
    {
        let Some(entry) = self.queue.pop_front() else {
            return Ok(());
        };
        let number = self.words.next_word();
        self.decide(&entry, number)
    }

    /// Serves at most `MOST` entries.
    fn drain(&mut self) -> Result<(), AllocError>
        requires ready { IsReady self.old.world }
        requires words { HasWords 4096 self.old }
        requires room { HasCounts 4096 self.old }
        ensures ready { OnOk result (IsReady self.new.world) }
        ensures plays { OnOk result (Plays (λ game play. drained game 4096 play) self.old self.new) }
        ensures words { OnOk result ((n : ℕ) → HasWords (n + 4096) self.old → HasWords n self.new) }
        ensures room { OnOk result ((n : ℕ) → HasCounts (n + 4096) self.old → HasCounts n self.new) }
    {
        for turn in 0..MOST {
            self.serve()?;
        }
        Ok(())
    }

    /// Each party ticks, in order.
    fn tick_all(&mut self) -> Result<(), AllocError>
        requires { IsReady self.old.world }
        ensures ready { OnOk result (IsReady self.new.world) }
        ensures plays { OnOk result (Plays (λ game play. ticked game (range_with_len 0 (self.old.liar.shape.peers + 1)) play)
            self.old self.new) }
        ensures counts { OnOk result (SameCounts self.old self.new) }
    {
        for party in 0..u32::from(self.liar.shape.peers) + 1 {
            self.make(&Move::TickOf(party as u16))?;
        }
        Ok(())
    }

    /// All parties take `ticks` ticks, with deliveries after each.
    pub fn play(&mut self, ticks: u32) -> Result<(), AllocError>
        requires ready { IsReady self.old.world }
        requires words { HasWords (4096 * ticks) self.old }
        requires room { HasCounts (4096 * ticks) self.old }
        ensures ready { OnOk result (IsReady self.new.world) }
        ensures plays { OnOk result (Plays (λ game play. played_on game 4096 ticks play) self.old self.new) }
    {
        for tick in 0..ticks {
            self.tick_all()?;
            self.drain()?;
        }
        Ok(())
    }
}
