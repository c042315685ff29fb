//! A link in memory.
ghost use Rattle.std.specs.Prelude.{◌≡◌, ◌≤◌, None, map, option_map, take, length, IsTrue, IfOk, Err, true};
ghost use Rattle.bar_outside.specs.Code.Schedule.{failing, next_call, fails_next, fails_never};
ghost use Rattle.bar_outside.specs.Code.MemTaken.{are_small, bound_in, bytes_sent};

use crate::mem_place::Place;
use crate::mem_sent::Sent;
use crate::mem_taken::MemTaken;
use crate::schedule::{Schedule, is_listed, new_schedule};
use crate::{Link, LinkFault, Taken};
use std::alloc::Global;

/// A link in memory: it gives the items of a list, and then its end. The calls with the given numbers, counted from 1, fail.
#[derive(Drop)]
pub struct MemLink {
    alloc: Global,
    list: Vec<MemTaken>,
    given: usize,
    ended: bool,
    place: Option<Place>,
    sent: Vec<Sent>,
    schedule: Schedule,
    faults: u64,
    ghost small: { are_small list.items ≡ true },
    ghost within: { given ≤ length list.items },
}

impl MemLink {
    ghost use Rattle.bar_outside.specs.Wire.{no_traffic};
    ghost use Rattle.bar_outside.specs.Code.MemLink.{wire_of, schedule_of};

    /// A link that isn't bound yet and gives this list, whose datagrams have at most 65,507 bytes each. `fail` contains the numbers of the
    /// calls that are to fail.
    pub fn make(alloc: Global, list: Vec<MemTaken>, fail: Vec<u64>) -> MemLink
        requires { are_small list.items ≡ true }
        ensures wire { wire_of result ≡
            record { reliable = fails_never (failing fail); traffic = no_traffic; faults = 0 } }
        ensures schedule { schedule_of result ≡ failing fail }
    {
        MemLink {
            alloc,
            list,
            given: 0,
            ended: false,
            place: None,
            sent: Vec::new(alloc),
            schedule: new_schedule(fail),
            faults: 0,
        }
    }

    /// The datagrams that were sent, in order.
    pub fn sent(&self) -> &[Sent]
        ensures { map bytes_sent result.now ≡ (wire_of self.now).traffic.sent }
    {
        &self.sent
    }

    /// What it is bound to, or `None` if it isn't bound.
    pub fn place(&self) -> Option<Place>
        ensures { option_map bound_in result ≡ (wire_of self.now).traffic.bound }
    {
        self.place
    }
}

// Writes bytes to the start of a buffer.
fn fill(buf: &mut [u8], bytes: &[u8])
    requires { length bytes.now ≤ length buf.old }
    ensures { take (length bytes.now) buf.new ≡ bytes.now }
{
    buf[..bytes.len()].copy_from_slice(bytes);
}

impl Link for MemLink {
    ghost use Rattle.bar_outside.specs.Wire.{Acts, Takes, arrival_of, bound_by, bound_to, largest_packet, sent_to};
    ghost use Rattle.bar_outside.specs.Code.MemLink.{wire_of, schedule_of, next_of};

    ghost wire = { wire_of };

    fn bind(&mut self, me: u16, port: u16, begin_ms: u64, tick_ms: u32) -> Result<(), LinkFault>
        ensures binds { Acts (bound_to (bound_by me port begin_ms tick_ms)) (wire_of self.old) (wire_of self.new) result }
        ensures counted { schedule_of self.new ≡ next_call (schedule_of self.old) }
        ensures listed { IsTrue (fails_next (schedule_of self.old)) → result ≡ Err LinkFault.Failed }
        ensures only_listed { result ≡ Err LinkFault.Failed → IsTrue (fails_next (schedule_of self.old)) }
    {
        if is_listed(&mut self.schedule) {
            self.faults = self.faults.saturating_add(1);
            return Err(LinkFault::Failed);
        }
        self.place = Some(Place {
            me,
            port,
            begin_ms,
            tick_ms,
        });
        self.ended = false;
        Ok(())
    }

    fn next(&mut self, buf: &mut [u8]) -> Result<Taken, LinkFault>
        requires { largest_packet ≤ length buf.old }
        ensures takes { Takes buf.new (wire_of self.old) (wire_of self.new) result }
        // the items of the list in order, and the end only after the last one
        ensures gives { IfOk result (λ taken. arrival_of buf.new taken ≡ next_of self.old) }
        ensures counted { schedule_of self.new ≡ next_call (schedule_of self.old) }
        ensures listed { IsTrue (fails_next (schedule_of self.old)) → result ≡ Err LinkFault.Failed }
        ensures only_listed { result ≡ Err LinkFault.Failed → IsTrue (fails_next (schedule_of self.old)) }
    {
        if is_listed(&mut self.schedule) {
            self.faults = self.faults.saturating_add(1);
            return Err(LinkFault::Failed);
        }
        if self.given >= self.list.len() {
            self.ended = true;
            return Ok(Taken::End);
        }
        let place = self.given;
        self.given += 1;
        match &self.list[place] {
            MemTaken::Tick => Ok(Taken::Tick),
            MemTaken::Datagram(bytes) => {
                fill(buf, bytes);
                Ok(Taken::Datagram(bytes.len()))
            }
        }
    }

    fn send(&mut self, to: u16, bytes: &[u8]) -> Result<(), LinkFault>
        ensures sends { Acts (sent_to to bytes.now) (wire_of self.old) (wire_of self.new) result }
        ensures counted { schedule_of self.new ≡ next_call (schedule_of self.old) }
        ensures listed { IsTrue (fails_next (schedule_of self.old)) → result ≡ Err LinkFault.Failed }
        ensures only_listed { result ≡ Err LinkFault.Failed → IsTrue (fails_next (schedule_of self.old)) }
    {
        if is_listed(&mut self.schedule) {
            self.faults = self.faults.saturating_add(1);
            return Err(LinkFault::Failed);
        }
        let Ok(bytes) = bytes.to_vec(self.alloc) else {
            return Err(LinkFault::NoMemory);
        };
        match self.sent.push(Sent { to, bytes }) {
            Ok(()) => Ok(()),
            Err(_) => Err(LinkFault::NoMemory),
        }
    }
}
