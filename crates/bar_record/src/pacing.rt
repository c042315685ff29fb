//! Pacing of inputs: a tick is inserted after too many datagrams in a row.

use std::marker::Model;

/// The most datagrams in a row.
const MOST_IN_A_ROW: u32 = 65_536;

/// Counts consecutive datagrams.
#[derive(Debug, Drop)]
pub struct Paced {
    run: u32,
}

impl Model for Paced {
    ghost use Rattle.std.specs.Prelude.{ℕ, ◌≤◌};

    ghost Value = { ℕ };

    ghost view = { λ p. p.run };

    ghost invariant = { λ p. p.run ≤ 65536 };
}

impl Paced {
    ghost use Rattle.std.specs.Prelude.{◌≡◌};
    ghost use Rattle.bar_record.specs.Pacing.{is_due, run_after};

    /// No datagrams so far.
    pub fn new() -> Paced
        ensures { result ≡ 0 }
    {
        Paced { run: 0 }
    }

    /// Counts an input, a datagram or a tick, and returns whether a tick is to be taken before it: that is so if it is a datagram after
    /// 65,536 datagrams in a row. It then counts as the first one after that tick.
    pub fn due(&mut self, is_datagram: bool) -> bool
        ensures answer { result ≡ is_due self.old is_datagram }
        ensures count { self.new ≡ run_after self.old is_datagram }
    {
        let is_due = is_datagram && self.run == MOST_IN_A_ROW;
        self.run = if !is_datagram {
            0
        } else if is_due {
            1
        } else {
            self.run + 1
        };
        is_due
    }
}
