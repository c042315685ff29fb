//! Up to which round the datagrams of an exchange are admitted, sent again and answered.
ghost use Rattle.std.specs.Prelude.{◌≡◌, ◌+◌, nat_le};

use crate::ledger::Ledger;
use bar_window::Exchange;

/// For how many rounds after its own a REQUEST or a QUERY is admitted, sent again and answered.
pub const REQUEST_DEADLINE: u8 = 1;

/// For how many rounds after its own the later datagrams of an exchange, up to the CASEs, are admitted and sent again.
pub const ANSWER_DEADLINE: u8 = 2;

/// Whether `now` is at most `after` rounds after `round`.
pub fn is_within(now: u32, round: u32, after: u8) -> bool
    ensures { result ≡ nat_le now (round + after) }
{
    u64::from(now) <= u64::from(round) + u64::from(after)
}

impl Ledger {
    /// Whether the current round is at most `after` rounds after that of an exchange.
    pub fn is_within(&self, x: Exchange, after: u8) -> bool
        ensures { result ≡ nat_le self.now.round (x.round + after) }
    {
        is_within(self.round(), x.round, after)
    }
}
