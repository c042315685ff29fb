//! The seeds of a session's peers, and the partners that they choose.
ghost use Rattle.std.specs.Prelude.{◌≡◌, ℕ, ◌+◌, ◌-◌, ◌≤◌, [], true, unwrap_or, slice_get, None, IfOk};
ghost use Rattle.bar_seeds.specs.Partners.{partner_of};
ghost use Rattle.bar_seeds.specs.Seeds.{is_seed};
ghost use Rattle.bar_seeds.specs.Code.Checkpoints.{kept_of, kept_round, MovesOn};
ghost use Rattle.bar_session.specs.Points.{AreSeeds, anchor_in};

use crate::session::Session;
use bar_bytes::Steps;
use bar_seeds::{Checkpoints, partner, seed_ok};
use bar_window::XKind;
use std::alloc::{AllocError, Global};
use std::sync::ledger::Ledger;

impl Session {
    /// Whether it is a peer's seed of a round. It counts a step for each round.
    pub fn is_seed<L: Ledger>(
        &self,
        peer: u16,
        round: u32,
        seed: &[u8; 32],
        steps: &mut Steps<L>,
    ) -> bool
        requires low { 1 ≤ peer }
        requires high { peer ≤ self.now.shape.peers }
        ensures exact { result ≡
            is_seed self.now.shape.id (anchor_in self.now peer) peer round seed.now }
        ensures cost { steps.new ≡ steps.old + round }
    {
        seed_ok(
            &self.shape().id,
            self.anchor(peer),
            peer,
            round,
            seed,
            steps,
        )
    }

    /// The first checkpoints of the peers' seeds: nothing is kept yet.
    pub fn checkpoints(&self, alloc: Global) -> Result<Checkpoints, AllocError>
        ensures seeds { IfOk result (AreSeeds self.now) }
        ensures empty { IfOk result (λ points. (peer : ℕ) → kept_of points peer ≡ None) }
    {
        let points = Checkpoints::make(alloc, self.shape().peers)?;
        Ok(points)
    }

    /// Whether it is a peer's seed of a round, using the checkpoints of the peers' seeds. It counts a step for each round back to the one
    /// that is kept of the peer or, if the kept value isn't met, a step for each round.
    pub fn is_known_seed<L: Ledger>(
        &self,
        peer: u16,
        round: u32,
        seed: &[u8; 32],
        points: &mut Checkpoints,
        steps: &mut Steps<L>,
    ) -> bool
        requires low { 1 ≤ peer }
        requires high { peer ≤ self.now.shape.peers }
        requires kept { AreSeeds self.now points.old }
        ensures exact { result ≡
            is_seed self.now.shape.id (anchor_in self.now peer) peer round seed.now }
        ensures cost { steps.new ≤ steps.old + round }
        ensures kept { AreSeeds self.now points.new }
        ensures moves { MovesOn peer points.old points.new }
        ensures reached { result ≡ true → round ≤ kept_round points.new peer }
    {
        points.seed_ok(
            &self.shape().id,
            self.anchor(peer),
            peer,
            round,
            seed,
            steps,
        )
    }

    /// The partner that a seed chooses for a peer and a kind of exchange.
    pub fn partner_of(&self, peer: u16, seed: &[u8; 32], kind: XKind) -> u16
        requires low { 1 ≤ peer }
        requires high { peer ≤ self.now.shape.peers }
        ensures { result ≡ partner_of self.now.shape.id self.now.shape.peers seed.now kind peer }
    {
        let shape = self.shape();
        partner(&shape.id, seed, kind, peer, shape.peers)
    }
}
