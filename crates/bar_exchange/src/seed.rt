//! The seed of a round.
ghost use Rattle.std.specs.Prelude.{◌≡◌, Some};
ghost use Rattle.bar_wire.specs.Grammar.{IsRound};
ghost use Rattle.bar_rules.specs.Member.{Member};
ghost use Rattle.bar_rules.specs.Secrets.{seed_of};
ghost use Rattle.bar_rules.specs.Peer.Knowledge.{Knowledge};
ghost use Rattle.bar_exchange.specs.Code.Writing.{AreSourcesOf};

use crate::sources::Sources;

/// This peer's seed of a round of the session, or `None` for any other round.
pub fn seed_of(sources: &Sources<'_>, round: u32) -> Option<[u8; 32]>
    ensures { (me : Member) (k : Knowledge) → AreSourcesOf me k sources.now → IsRound me.session.shape round
        → result ≡ Some (seed_of me round) }
{
    if round < 1 || round > sources.chain.rounds() {
        return None;
    }
    Some(sources.chain.seed(round))
}
