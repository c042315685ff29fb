//! A sink in memory.
ghost use Rattle.std.specs.Prelude.{◌≡◌, [], IsTrue, Err, true};
ghost use Rattle.bar_outside.specs.Code.Schedule.{failing, next_call, fails_next, fails_never};

use crate::schedule::{Schedule, is_listed, new_schedule};
use crate::{Sink, SinkFault};
use std::alloc::Global;

/// A sink in memory. The writes with the given numbers, counted from 1, fail. A failing write may append the first half of its bytes.
#[derive(Drop)]
pub struct MemSink {
    bytes: Vec<u8>,
    schedule: Schedule,
    faults: u64,
}

impl MemSink {
    ghost use Rattle.bar_outside.specs.Code.MemSink.{stream_of, schedule_of};

    /// An empty sink. `fail` contains the numbers of the writes that are to fail.
    pub fn make(alloc: Global, fail: Vec<u64>) -> MemSink
        ensures stream { stream_of result ≡ record { reliable = fails_never (failing fail); bytes = []; faults = 0 } }
        ensures schedule { schedule_of result ≡ failing fail }
    {
        MemSink {
            bytes: Vec::new(alloc),
            schedule: new_schedule(fail),
            faults: 0,
        }
    }

    /// All bytes that it holds.
    pub fn bytes(&self) -> &[u8]
        ensures { result.now ≡ (stream_of self.now).bytes }
    {
        &self.bytes
    }
}

impl Sink for MemSink {
    ghost use Rattle.bar_outside.specs.Stream.{Writes};
    ghost use Rattle.bar_outside.specs.Code.MemSink.{stream_of, schedule_of};

    ghost stream = { stream_of };

    fn write(&mut self, bytes: &[u8]) -> Result<(), SinkFault>
        ensures writes { Writes bytes.now (stream_of self.old) (stream_of self.new) result }
        ensures counted { schedule_of self.new ≡ next_call (schedule_of self.old) }
        // Failed if and only if the call is listed, unless memory runs out
        ensures listed { IsTrue (fails_next (schedule_of self.old)) → result ≡ Err SinkFault.Failed }
        ensures only_listed { result ≡ Err SinkFault.Failed → IsTrue (fails_next (schedule_of self.old)) }
    {
        if is_listed(&mut self.schedule) {
            self.faults = self.faults.saturating_add(1);
            let _ = self.bytes.extend_from_slice(&bytes[..bytes.len() / 2]);
            return Err(SinkFault::Failed);
        }
        match self.bytes.extend_from_slice(bytes) {
            Ok(()) => Ok(()),
            Err(_) => Err(SinkFault::NoMemory),
        }
    }
}
