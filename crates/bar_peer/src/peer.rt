ghost use Rattle.std.specs.Prelude.{◌≡◌, ◌≤◌};
ghost use Rattle.bar_peer.specs.Code.Cases.{AreCasesNow};
ghost use Rattle.bar_peer.specs.Code.Checking.{IsGuardOf};
ghost use Rattle.bar_peer.specs.Code.Memory.{member_of};
ghost use Rattle.bar_rules.specs.Signers.{IsSignerOf};
ghost use Rattle.bar_peer.specs.Code.Ticking.{most_orders};

use crate::cases::Cases;
use crate::guard::Guard;
use crate::memory::Memory;
use crate::order::Order;
use crate::playing::Playing;
use bar_core::Orders;
use bar_seal::Scheme;

/// A peer of a session. It takes ticks and datagrams. All datagrams and contents of an input are given out before the next input is taken.
#[derive(Drop)]
pub struct Peer<S: Scheme> {
    pub(crate) memory: Memory,
    /// The scheme, which verifies and signs, with its memo, and the peers' seeds.
    pub(crate) guard: Guard<S>,
    pub(crate) orders: Orders<Order>,
    pub(crate) playing: Playing,
    /// The CASEs that were sent since the memory last changed.
    pub(crate) cases: Cases,
    pub ghost guards: { IsGuardOf memory.who.session guard },
    ghost signs: { IsSignerOf (member_of memory.who) (S.signed guard.checker.verifier) (S.leaf_count guard.checker.verifier)
        (S.Verifier.signature_len guard.checker.verifier) },
    pub ghost places: { guard.checker.memo.places ≡ 256 },
    ghost room: { most_orders memory.who.session ≤ orders.room },
    ghost kept: { AreCasesNow memory cases },
}
