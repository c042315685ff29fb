//! A peer made from a party's key.
ghost use Rattle.std.specs.Prelude.{◌≡◌, ℕ, [], None, false, IfOk};
ghost use Rattle.bar_seeds.specs.Code.Checkpoints.{kept_of};
ghost use Rattle.bar_hss.specs.Files.{IsPartyKeyOf};
ghost use Rattle.bar_rules.specs.Members.{member_by};
ghost use Rattle.bar_peer.specs.Code.Memory.{member_of};
ghost use Rattle.bar_core.specs.Code.Orders.{left_in};
ghost use Rattle.bar_peer.specs.Code.StandsFor.{StandsFor, contents_left};

use crate::peer::Peer;
use bar_hss::{PartyKey, SessionScheme};
use bar_roster::Session;
use bar_wire::{LEAVES_A_ROUND, Shape};
use std::alloc::{AllocError, Global};

/// The number of leaves of the rounds that may still be asked about: two more rounds than an update lives.
fn leaves_in_use(shape: &Shape) -> u16 {
    LEAVES_A_ROUND as u16 * (u16::from(shape.life) + 2)
}

impl Peer<SessionScheme> {
    /// The peer that a party's key belongs to, in its session, before any input. Its scheme remembers the signatures of recent leaves, so
    /// that a message that is sent again isn't signed again.
    pub fn of_key(
        alloc: Global,
        session: Session,
        key: PartyKey,
    ) -> Result<Peer<SessionScheme>, AllocError>
        requires { IsPartyKeyOf session false key }
        ensures stands { IfOk result (λ p. StandsFor p.memory []) }
        ensures sends { IfOk result (λ p. left_in p.orders ≡ []) }
        ensures contents { IfOk result (λ p. contents_left p.memory.store p.playing ≡ []) }
        ensures member { IfOk result (λ p. member_of p.memory.who ≡ member_by session key.secrets) }
        ensures memo { IfOk result (λ p. p.guard.checker.memo ≡ record { places = 256; pairs = [] }) }
        ensures points { IfOk result (λ p. (peer : ℕ) → kept_of p.guard.points peer ≡ None) }
    {
        let mut scheme = key.scheme;
        scheme.remember(alloc, leaves_in_use(&session.shape()))?;
        Peer::start(alloc, session, key.secrets, key.chain, scheme)
    }
}
