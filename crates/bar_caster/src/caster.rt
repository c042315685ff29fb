ghost use Rattle.std.specs.Prelude.{◌≡◌, ◌≤◌, length};
ghost use Rattle.bar_wire.specs.Limits.{largest_datagram};
ghost use Rattle.bar_rules.specs.Signers.{IsSignerOf};
ghost use Rattle.bar_rules.specs.Verifiers.{IsVerifierOf, NamesLeavesOf};
ghost use Rattle.bar_caster.specs.Code.Memory.{member_of};
ghost use Rattle.bar_caster.specs.Code.Ticking.{most_orders};

use crate::fanout::Ranks;
use crate::memory::Memory;
use crate::order::Order;
use bar_core::Orders;
use bar_seal::Scheme;

/// The broadcaster of a session. It takes ticks and datagrams. All datagrams of an input are given out before the next input is taken.
#[derive(Drop)]
pub struct Caster<S: Scheme> {
    pub(crate) memory: Memory,
    pub(crate) scheme: S,
    pub(crate) orders: Orders<Order>,
    /// The ranks of the peers for the update whose block is being sent.
    pub(crate) ranks: Ranks,
    /// A buffer in which a datagram is written and signed.
    pub(crate) scratch: Vec<u8>,
    ghost verifies: { IsVerifierOf memory.session (S.Verifier.is_accepted scheme) },
    ghost names: { NamesLeavesOf memory.session (S.Verifier.leaf_named scheme) (S.Verifier.signature_len scheme) },
    ghost signs: { IsSignerOf (member_of memory) (S.signed scheme) (S.leaf_count scheme) (S.Verifier.signature_len scheme) },
    ghost room: { most_orders memory.session ≤ orders.room },
    ghost ranks_are: { length ranks ≡ memory.session.shape.peers },
    ghost scratch_len: { length scratch.items ≡ largest_datagram },
}
