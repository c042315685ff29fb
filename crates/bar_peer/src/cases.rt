//! The CASEs that were sent since the memory last changed.
ghost use Rattle.std.specs.Prelude.{◌≡◌, length};

use bar_bytes::Rooms;
use bar_window::{Exchange, LARGEST_CIPHER};
use bar_wire::Shape;
use std::alloc::{AllocError, Global};

/// The number of rooms: one for each exchange of a peer in the rounds whose CASEs are sent, which are at most four.
const ROOMS: usize = 24;

/// The largest size of a CASE without its cipher and its signature, in bytes.
const MOST_WORDS: usize = 1_050;

/// Rooms for CASEs, each labelled with the exchange of its CASE. All memory is allocated when they are made.
#[derive(Drop)]
pub struct Cases {
    /// The exchange whose CASE a room keeps, or `None` if the room's content was dropped.
    names: Vec<Option<Exchange>>,
    rooms: Rooms,
    ghost count: { length names.items ≡ length rooms.rooms.items },
}

impl Cases {
    ghost use Rattle.std.specs.Prelude.{◌≡◌, ℕ, List, None, Some, IfOk, option_copied, true, false};
    ghost use Rattle.bar_window.specs.declared.exchange.Exchange.{Exchange};
    ghost use Rattle.bar_peer.specs.Code.Cases.{IsIn, IsInOrNew, KeepsNone};

    /// Empty rooms for the CASEs of a session.
    pub fn make(alloc: Global, shape: &Shape) -> Result<Cases, AllocError>
        ensures { IfOk result KeepsNone }
    {
        let size = (LARGEST_CIPHER + MOST_WORDS).saturating_add(shape.sig_len);
        let names = vec![in alloc; None; ROOMS]?;
        let rooms = Rooms::make(alloc, ROOMS, size)?;
        Ok(Cases { names, rooms })
    }

    /// The CASE of exchange `x` in room `number` modulo `ROOMS`, or `None` if that room keeps another one or none.
    pub fn get(&self, number: usize, x: Exchange) -> Option<&[u8]>
        ensures { (bytes : List ℕ) → option_copied result ≡ Some bytes → IsIn self.now x bytes }
    {
        let number = number % ROOMS;
        let name = self.names.get(number)?.as_ref()?;
        if *name != x {
            return None;
        }
        self.rooms.get(number)
    }

    /// Keeps the CASE of exchange `x` in room `number` modulo `ROOMS`, if it fits.
    pub fn keep(&mut self, number: usize, x: Exchange, bytes: &[u8])
        ensures { IsInOrNew x bytes.now self.old self.new }
    {
        let number = number % ROOMS;
        if number >= self.names.len() || bytes.len() > self.rooms.size() {
            return;
        }
        self.rooms.keep(number, bytes);
        self.names[number] = Some(x);
    }

    /// Drops all CASEs.
    fn clear(&mut self)
        ensures { KeepsNone self.new }
    {
        for number in 0..self.names.len() {
            self.names[number] = None;
        }
    }

    /// Drops all CASEs unless `holds` is true.
    pub fn keep_while(&mut self, holds: bool)
        ensures kept { holds ≡ true → self.new ≡ self.old }
        ensures cleared { holds ≡ false → KeepsNone self.new }
    {
        if !holds {
            self.clear();
        }
    }
}
