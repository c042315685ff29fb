ghost use Rattle.std.specs.Prelude.{◌≡◌};
ghost use Rattle.bar_rules.specs.Member.{IsMember};
ghost use Rattle.bar_rules.specs.Members.{member_by};

use bar_roster::Session;
use bar_seeds::{Secrets, SeedChain};

/// A peer's session, secrets and seed chain. The session contains the peer's key and its seed chain's anchor, both derived from the
/// secrets.
#[derive(Drop)]
pub struct Credentials {
    pub session: Session,
    pub secrets: Secrets,
    pub chain: SeedChain,
    ghost same_session: { secrets.id ≡ session.shape.id },
    ghost same_secrets: { chain ≡ record { secrets = secrets; rounds = session.shape.rounds } },
    ghost is_member: { IsMember (member_by session secrets) },
}
