//! How a move changes a world.
ghost use Rattle.std.specs.Prelude.{◌+◌, ◌<◌, ◌++◌, ◌∷◌, [], List, length, map, OnOk};
ghost use Rattle.bar_wire.specs.Inputs.{plain_input};
ghost use Rattle.bar_rules.specs.World.World.{Setup};
ghost use Rattle.bar_rules.specs.World.World as plain;
ghost use Rattle.bar_laws.specs.Parties.{after};
ghost use Rattle.bar_world.specs.Code.Kept.{IsReady, StandsFor};
ghost use Rattle.bar_world.specs.Code.Given.{Gives};
ghost use Rattle.bar_world.specs.Code.Moves.{plain_move};

use crate::feeding::feed;
use crate::moves::Move;
use crate::world::World;
use bar_laws::own_runs::parties_run_alone;
use bar_wire::Input;
use std::alloc::AllocError;

impl World {
    /// The broadcaster takes an input.
    fn take_as_caster(&mut self, input: Input<'_>) -> Result<(), AllocError>
        requires { IsReady self.old }
        ensures ready { OnOk result (IsReady self.new) }
        ensures stands { OnOk result ((setup : Setup) (moves : List plain.Move) (m : plain.Move) →
            Gives setup (after setup moves) m 0 (plain_input input.entry) → StandsFor setup moves self.old →
            StandsFor setup (moves ++ m ∷ []) self.new) }
    {
        parties_run_alone();
        feed(
            self.alloc,
            &mut self.caster,
            input,
            &mut self.buf,
            &mut self.pool,
            &mut self.played[0],
        )
    }

    /// A peer takes an input. `place` is its index among the peers.
    fn take_as_peer(&mut self, place: usize, input: Input<'_>) -> Result<(), AllocError>
        requires ready { IsReady self.old }
        requires place { place < length self.old.peers.items }
        ensures ready { OnOk result (IsReady self.new) }
        ensures stands { OnOk result ((setup : Setup) (moves : List plain.Move) (m : plain.Move) →
            Gives setup (after setup moves) m (place + 1) (plain_input input.entry) → StandsFor setup moves self.old →
            StandsFor setup (moves ++ m ∷ []) self.new) }
    {
        parties_run_alone();
        feed(
            self.alloc,
            &mut self.peers[place],
            input,
            &mut self.buf,
            &mut self.pool,
            &mut self.played[place + 1],
        )
    }

    /// A party takes an input. Nothing happens if there is no such party.
    fn take(&mut self, party: u16, input: Input<'_>) -> Result<(), AllocError>
        requires { IsReady self.old }
        ensures ready { OnOk result (IsReady self.new) }
        ensures stands { OnOk result ((setup : Setup) (moves : List plain.Move) (m : plain.Move) →
            Gives setup (after setup moves) m party (plain_input input.entry) → StandsFor setup moves self.old →
            StandsFor setup (moves ++ m ∷ []) self.new) }
    {
        match usize::from(party) {
            0 => self.take_as_caster(input),
            peer if peer <= self.peers.len() => self.take_as_peer(peer - 1, input),
            _ => Ok(()),
        }
    }

    /// A datagram of the pool arrives at its receiver. Nothing happens if the pool has no such number.
    fn deliver(&mut self, number: u64) -> Result<(), AllocError>
        requires { IsReady self.old }
        ensures ready { OnOk result (IsReady self.new) }
        ensures stands { OnOk result ((setup : Setup) (moves : List plain.Move) → StandsFor setup moves self.old →
            StandsFor setup (moves ++ plain.Deliver number ∷ []) self.new) }
    {
        let Some(packet) = self.pool.get(number as usize) else {
            return Ok(());
        };
        let to = packet.to;
        let bytes = packet.bytes.clone()?;
        self.take(to, Input::Datagram(&bytes))
    }

    /// A move happens.
    pub(crate) fn happen(&mut self, step: &Move) -> Result<(), AllocError>
        requires { IsReady self.old }
        ensures ready { OnOk result (IsReady self.new) }
        ensures stands { OnOk result ((setup : Setup) (moves : List plain.Move) → StandsFor setup moves self.old →
            StandsFor setup (moves ++ plain_move step.now ∷ []) self.new) }
    {
        match step {
            Move::TickOf(party) => self.take(*party, Input::Tick),
            Move::Deliver(number) => self.deliver(*number),
            Move::Hostile { to, bytes } => self.take(*to, Input::Datagram(bytes)),
        }
    }
}

/// Moves happen in a world, in order. A `Deliver` past the end of the pool and a move of a party that doesn't exist change nothing. If an
/// allocation fails, the world must not be used any more.
pub fn run_world(world: &mut World, moves: &[Move]) -> Result<(), AllocError>
    requires { IsReady world.old }
    ensures ready { OnOk result (IsReady world.new) }
    ensures stands { OnOk result ((setup : Setup) (before : List plain.Move) → StandsFor setup before world.old →
        StandsFor setup (before ++ map plain_move moves.now) world.new) }
{
    for step in moves {
        world.happen(step)?;
    }
    Ok(())
}
