//! The time of a session: rounds, and the slots of each.
ghost use Rattle.std.specs.Prelude.{◌≡◌, ◌≤◌};
ghost use Rattle.bar_session.specs.Time.{last_tick, most_ticks, round_after, slot_after};

use crate::Session;

/// How many ticks a round has, each a slot of its own, from 0 on.
pub const SLOTS_A_ROUND: u32 = 8;

/// The round after so many ticks; 0 before the first one.
pub fn round_after(ticks: u32) -> u32
    ensures { result ≡ round_after ticks }
{
    ticks.div_ceil(SLOTS_A_ROUND)
}

/// The slot of the last of so many ticks, which are counted from 1.
pub fn slot_after(ticks: u32) -> u32
    ensures { result ≡ slot_after ticks }
{
    (ticks % SLOTS_A_ROUND + (SLOTS_A_ROUND - 1)) % SLOTS_A_ROUND
}

impl Session {
    /// The last tick that a party takes: the last one of the round after the one in which the last updates are played.
    pub fn last_tick(&self) -> u32
        ensures value { result ≡ last_tick self.now }
        ensures few { result ≤ most_ticks }
    {
        let shape = self.shape();
        SLOTS_A_ROUND * (shape.rounds + u32::from(shape.life) + 1)
    }
}
