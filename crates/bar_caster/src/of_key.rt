//! A broadcaster made from a party's key.
ghost use Rattle.std.specs.Prelude.{◌≡◌, ◌*◌, ◌<◌, ◌≤◌, [], true, Err, IfErr, IfOk, length};
ghost use Rattle.bar_hss.specs.Files.{IsPartyKeyOf};
ghost use Rattle.bar_core.specs.Code.Orders.{left_in};
ghost use Rattle.bar_wire.specs.Limits.{largest_content};
ghost use Rattle.bar_rules.specs.Members.{member_by};
ghost use Rattle.bar_caster.specs.Code.Memory.{member_of, stream_of};
ghost use Rattle.bar_caster.specs.Code.StandsFor.{StandsFor};
ghost use Rattle.bar_caster.specs.declared.fault.CasterFault.TheVariants as faults;

use crate::caster::Caster;
use crate::fault::CasterFault;
use bar_hss::{PartyKey, SessionScheme};
use bar_roster::Session;
use std::alloc::Global;

impl Caster<SessionScheme> {
    /// The broadcaster that a party's key belongs to, in its session, with its stream, before any input.
    ///
    /// # Errors
    ///
    /// Those of `start`.
    pub fn of_key(
        alloc: Global,
        session: Session,
        key: PartyKey,
        stream: Vec<u8>,
    ) -> Result<Caster<SessionScheme>, CasterFault>
        requires { IsPartyKeyOf session true key }
        ensures stands { IfOk result (λ c. StandsFor c.memory []) }
        ensures sends { IfOk result (λ c. left_in c.orders ≡ []) }
        ensures member { IfOk result (λ c. member_of c.memory ≡ member_by session key.secrets) }
        ensures stream { IfOk result (λ c. stream_of c.memory ≡ stream.items) }
        ensures too_long { session.shape.rounds * session.shape.per_round * largest_content < length stream.items
            → result ≡ Err (faults.TooLong (length stream.items) (session.shape.rounds * session.shape.per_round * largest_content)) }
        ensures fits { length stream.items ≤ session.shape.rounds * session.shape.per_round * largest_content
            → IfErr result (λ e. e ≡ faults.NoMemory) }
    {
        let _shape = session.shape();
        Caster::start(alloc, session, key.secrets, key.scheme, stream)
    }
}
