//! The public view of a world.
ghost use Rattle.std.specs.Prelude.{◌≡◌, ◌<◌, ℕ, Bool, true, List, length, option_map, slice_get, Some, Contains};
ghost use Rattle.bar_rules.specs.Broadcaster.Sending.{evicted};
ghost use Rattle.bar_rules.specs.Peer.Log.{Log};
ghost use Rattle.bar_rules.specs.World.World.{Setup};
ghost use Rattle.bar_rules.specs.World.World as plain;
ghost use Rattle.bar_laws.specs.Parties.{ForgesNothing, IsCastersLog, after};
ghost use Rattle.bar_world.specs.Code.Kept.{StandsFor};

use crate::world::World;
use bar_laws::own_runs::parties_run_alone;
use bar_laws::parties::nobody_is_evicted;

impl World {
    /// How many parties there are.
    pub fn party_count(&self) -> usize
        ensures { result ≡ length self.now.played.items }
    {
        self.played.len()
    }

    /// The peers that the broadcaster evicted, in increasing order. If the moves forge nothing of the trusted parties, no trusted peer is
    /// one of them.
    pub fn evicted(&self) -> &[u16]
        ensures listed { (setup : Setup) (moves : List plain.Move) (log : Log) → StandsFor setup moves self.now →
            IsCastersLog (after setup moves) log → result.now ≡ evicted setup.session log }
        ensures honest { (setup : Setup) (trusted : ℕ → Bool) (moves : List plain.Move) → StandsFor setup moves self.now →
            ForgesNothing setup trusted moves → (peer : ℕ) → trusted peer ≡ true → Contains result.now peer → ⊥ }
    {
        parties_run_alone();
        nobody_is_evicted();
        self.caster.evicted()
    }

    /// The receiver and the bytes of the datagram with a number in the pool, or `None` past its end.
    pub fn pool(&self, number: u64) -> Option<(u16, &[u8])>
        ensures { (setup : Setup) (moves : List plain.Move) → StandsFor setup moves self.now →
            option_map (λ sent. (sent.0, sent.1.now)) result ≡ slice_get (after setup moves).packets number }
    {
        let packet = self.pool.get(number as usize)?;
        Some((packet.to, packet.bytes.as_slice()))
    }

    /// The bytes that a party played.
    pub fn played(&self, party: u16) -> &[u8]
        requires { party < length self.now.played.items }
        ensures { (setup : Setup) (moves : List plain.Move) → StandsFor setup moves self.now →
            slice_get (after setup moves).played party ≡ Some result.now }
    {
        self.played[usize::from(party)].as_slice()
    }
}
