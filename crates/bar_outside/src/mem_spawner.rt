//! A spawner in memory.
ghost use Rattle.std.specs.Prelude.{◌≡◌, ◌≤◌, ◌+◌, [], length, map, vec_capacity, string_bytes, slice_get, unwrap_or, pos, IsTrue, IfOk, Err, true};
ghost use Rattle.bar_outside.specs.Code.Schedule.{failing, next_call, fails_next, fails_never};
ghost use Rattle.bar_outside.specs.Code.MemCalls.{call_in};
ghost use Rattle.bar_outside.specs.Code.OpenChildren.{are_below, open_below};

use crate::mem_call::MemCall;
use crate::schedule::{Schedule, is_listed, new_schedule};
use crate::{ChildFault, Spawner};
use std::alloc::{AllocError, Global};

/// A spawner in memory. The children end with the statuses of a list, in the order of their starts, and with 0 after the list's end. The
/// calls with the given numbers, counted from 1, fail.
#[derive(Drop)]
pub struct MemSpawner {
    alloc: Global,
    statuses: Vec<i32>,
    calls: Vec<MemCall>,
    started: usize,
    schedule: Schedule,
    faults: u64,
    ghost below: { are_below started (map call_in calls.items) ≡ true },
    // there is room for the wait for each child
    ghost room: { length calls.items + open_below started (map call_in calls.items) ≤ vec_capacity calls },
    ghost few: { started ≤ length calls.items },
}

impl MemSpawner {
    ghost use Rattle.bar_outside.specs.Code.MemSpawner.{children_of, schedule_of};

    /// A spawner that has started nothing. `statuses` contains the statuses with which its children end, and `fail` the numbers of the
    /// calls that are to fail.
    pub fn make(alloc: Global, statuses: Vec<i32>, fail: Vec<u64>) -> MemSpawner
        ensures children { children_of result ≡
            record { reliable = fails_never (failing fail); calls = []; faults = 0 } }
        ensures schedule { schedule_of result ≡ failing fail }
    {
        MemSpawner {
            alloc,
            statuses,
            calls: Vec::new(alloc),
            started: 0,
            schedule: new_schedule(fail),
            faults: 0,
        }
    }

    /// The calls that it accepted, in order. A refused start isn't one of them.
    pub fn calls(&self) -> &[MemCall]
        ensures { map call_in result.now ≡ (children_of self.now).calls }
    {
        &self.calls
    }
}

// A copy of the arguments.
fn copied(alloc: Global, words: &[String]) -> Result<Vec<String>, AllocError>
    ensures { IfOk result (λ copies. map string_bytes copies.items ≡ map string_bytes words.now) }
{
    let mut copies = Vec::with_capacity(alloc, words.len())?;
    for word in words {
        copies.push(String::from_str(alloc, word.as_str())?)?;
    }
    Ok(copies)
}

// The status at this index of a list, or 0 past its end.
fn status_at(statuses: &[i32], child: usize) -> i32
    ensures { result ≡ unwrap_or (slice_get statuses.now child) (pos 0) }
{
    match statuses.get(child) {
        Some(status) => *status,
        None => 0,
    }
}

impl Spawner for MemSpawner {
    ghost use Rattle.std.specs.Prelude.{◌<◌};
    ghost use Rattle.bar_outside.specs.Code.Children.{IsRunning, Starts, Waits};
    ghost use Rattle.bar_outside.specs.Code.MemSpawner.{children_of, schedule_of, status_of};

    ghost children = { children_of };

    fn start(&mut self, words: &[String]) -> Result<usize, ChildFault>
        requires { 0 < length words.now }
        ensures starts { Starts (map string_bytes words.now) (children_of self.old) (children_of self.new) result }
        ensures counted { schedule_of self.new ≡ next_call (schedule_of self.old) }
        ensures listed { IsTrue (fails_next (schedule_of self.old)) → result ≡ Err ChildFault.Failed }
        ensures only_listed { result ≡ Err ChildFault.Failed → IsTrue (fails_next (schedule_of self.old)) }
    {
        if is_listed(&mut self.schedule) {
            self.faults = self.faults.saturating_add(1);
            return Err(ChildFault::Failed);
        }
        let Ok(words) = copied(self.alloc, words) else {
            return Err(ChildFault::NoMemory);
        };
        // room for this call and the waits for all children
        if self.calls.reserve(self.started + 2).is_err() {
            return Err(ChildFault::NoMemory);
        }
        let child = self.started;
        if self.calls.push(MemCall::Started { words, child }).is_err() {
            return Err(ChildFault::NoMemory);
        }
        self.started += 1;
        Ok(child)
    }

    fn wait(&mut self, child: usize) -> Result<i32, ChildFault>
        requires { IsRunning child (children_of self.old).calls }
        ensures waits { Waits child (children_of self.old) (children_of self.new) result }
        // the statuses are in the order of the starts
        ensures ends { IfOk result (λ status. status ≡ status_of self.old child) }
        ensures counted { schedule_of self.new ≡ next_call (schedule_of self.old) }
        ensures listed { IsTrue (fails_next (schedule_of self.old)) → result ≡ Err ChildFault.Failed }
        ensures only_listed { result ≡ Err ChildFault.Failed → IsTrue (fails_next (schedule_of self.old)) }
    {
        let fails = is_listed(&mut self.schedule);
        let ended = status_at(&self.statuses, child);
        let status = if fails { None } else { Some(ended) };
        if self.calls.push(MemCall::Waited { child, status }).is_err() {
            return Err(ChildFault::NoMemory);
        }
        if fails {
            self.faults = self.faults.saturating_add(1);
            return Err(ChildFault::Failed);
        }
        Ok(ended)
    }
}
