//! Which evictions were announced.
ghost use Rattle.std.specs.Prelude.{◌≡◌, ◌||◌, ◌==◌};
ghost use Rattle.std.specs.List.{list_any};
ghost use Rattle.bar_wire.specs.Places.{pairs};

use std::alloc::{AllocError, Global};

/// The rounds whose EVICT was admitted, and the parties that admitted EVICTs name. All memory is allocated when it is made.
#[derive(Drop)]
pub struct Evictions {
    /// A mark for each round, starting with round 0.
    rounds: Vec<bool>,
    /// A mark for each party, starting with party 0.
    parties: Vec<bool>,
}

impl Evictions {
    ghost use Rattle.std.specs.Prelude.{◌≡◌, ℕ, ◌+◌, ◌*◌, ◌<◌, ◌||◌, ◌==◌, ◌&&◌, false, nat_lt, length, IfOk};
    ghost use Rattle.std.specs.List.{list_any};
    ghost use Rattle.bar_wire.specs.Places.{pairs};
    ghost use Rattle.bar_peer.specs.Code.Evictions.{was_heard, is_named};

    /// No evictions, and room for those of rounds up to `rounds` and of parties up to `peers`.
    pub fn make(alloc: Global, rounds: u32, peers: u16) -> Result<Evictions, AllocError>
        ensures rounds { IfOk result (λ e. (round : ℕ) → was_heard e round ≡ false) }
        ensures parties { IfOk result (λ e. (party : ℕ) → is_named e party ≡ false) }
        ensures room_for_rounds { IfOk result (λ e. length e.rounds.items ≡ rounds + 1) }
        ensures room_for_parties { IfOk result (λ e. length e.parties.items ≡ peers + 1) }
    {
        let rounds = vec![in alloc; false; rounds as usize + 1]?;
        let parties = vec![in alloc; false; usize::from(peers) + 1]?;
        Ok(Evictions { rounds, parties })
    }

    /// Whether the EVICT of a round was admitted.
    pub fn was_heard(&self, round: u32) -> bool
        ensures { result ≡ was_heard self.now round }
    {
        match self.rounds.get(round as usize) {
            Some(mark) => *mark,
            None => false,
        }
    }

    /// Whether an admitted EVICT names a party.
    pub fn is_named(&self, party: u16) -> bool
        ensures { result ≡ is_named self.now party }
    {
        match self.parties.get(usize::from(party)) {
            Some(mark) => *mark,
            None => false,
        }
    }

    /// Marks a round, if there is a mark for it.
    fn hear(&mut self, round: u32)
        ensures heard { (r : ℕ) → was_heard self.new r ≡
            (was_heard self.old r || (r == round) && nat_lt round (length self.old.rounds.items)) }
        ensures parties { self.new.parties ≡ self.old.parties }
        ensures room { length self.new.rounds.items ≡ length self.old.rounds.items }
    {
        if let Some(mark) = self.rounds.get_mut(round as usize) {
            *mark = true;
        }
    }

    /// Marks a party, if there is a mark for it.
    fn name(&mut self, party: u16)
        ensures named { (p : ℕ) → is_named self.new p ≡
            (is_named self.old p || (party == p) && nat_lt party (length self.old.parties.items)) }
        ensures rounds { self.new.rounds ≡ self.old.rounds }
        ensures room { length self.new.parties.items ≡ length self.old.parties.items }
    {
        if let Some(mark) = self.parties.get_mut(usize::from(party)) {
            *mark = true;
        }
    }

    /// Marks the round of an EVICT and the parties that it names, of two bytes each, if there are marks for them.
    pub fn add(&mut self, round: u32, parties: &[u8])
        ensures rounds { (r : ℕ) → was_heard self.new r ≡
            (was_heard self.old r || (r == round) && nat_lt round (length self.old.rounds.items)) }
        ensures parties { (p : ℕ) → is_named self.new p ≡
            (is_named self.old p || list_any (λ q. (q == p) && nat_lt q (length self.old.parties.items)) (pairs parties.now)) }
        ensures room_for_rounds { length self.new.rounds.items ≡ length self.old.rounds.items }
        ensures room_for_parties { length self.new.parties.items ≡ length self.old.parties.items }
    {
        self.hear(round);
        for pair in parties.as_chunks::<2>().0 {
            self.name(u16::from_be_bytes(*pair));
        }
    }
}
