//! A session's children: all are started, and then each is waited for.
ghost use Rattle.std.specs.Prelude.{◌≡◌, ◌≤◌, ◌+◌, length, map, vec_capacity, IsTrue};
ghost use Rattle.bar_outside.specs.Code.Children.{Starts};
ghost use Rattle.bar_child_processes.specs.Outcomes.{code_of};
ghost use Rattle.bar_child_processes.specs.Sessions.{AreRunning, Reports, SessionRan, StartsAll};
ghost use Rattle.bar_child_processes.specs.Code.Views.{key_in, names_view, report_view};
ghost use Rattle.bar_child_processes.specs.Words.{party_at, words_of};

use crate::child::Child;
use crate::outcome::{Outcome, outcome_of};
use crate::report::Report;
use crate::session_names::SessionNames;
use crate::words::child_words;
use bar_outside::{ChildFault, Sink, Spawner};
use std::alloc::Global;

// The peers from 1 on, and then the broadcaster.
fn party_at(place: usize, peers: u16) -> u16
    ensures { result ≡ party_at peers place }
{
    if place < usize::from(peers) {
        place as u16 + 1
    } else {
        0
    }
}

// Starts the child for this party.
fn start_child<S: Spawner>(
    alloc: Global,
    names: &SessionNames<'_>,
    party: u16,
    spawn: &mut S,
) -> Result<usize, ChildFault>
    ensures { Starts (words_of (names_view names.now) party) (S.children spawn.old) (S.children spawn.new) result }
{
    let Ok(words) = child_words(alloc, names, party) else {
        return Err(ChildFault::NoMemory);
    };
    spawn.start(&words)
}

// Starts a child for each party, up to a refused start, whose outcome is returned.
fn start_all<S: Spawner>(
    alloc: Global,
    names: &SessionNames<'_>,
    peers: u16,
    children: &mut Vec<Child>,
    spawn: &mut S,
) -> Outcome
    requires none { length children.old.items ≡ 0 }
    requires room { peers + 1 ≤ vec_capacity children.old }
    ensures { StartsAll (names_view names.now) peers (map key_in children.new.items) (S.children spawn.old) (S.children spawn.new)
        (code_of result) }
{
    for place in 0..usize::from(peers) + 1 {
        let party = party_at(place, peers);
        match start_child(alloc, names, party, spawn) {
            Ok(number) => {
                if children.push(Child { party, number }).is_err() {
                    return Outcome::NoMemory;
                }
            }
            Err(fault) => return outcome_of(fault),
        }
    }
    Outcome::Done
}

// Waits for each child in order.
fn wait_for_all<K: Sink, S: Spawner>(
    alloc: Global,
    children: &[Child],
    report: &mut Report,
    out: &mut K,
    spawn: &mut S,
)
    requires { AreRunning (S.children spawn.old).calls (map (λ c. c.number) children.now) }
    ensures { Reports (map key_in children.now) (report_view report.old) (report_view report.new)
        (K.stream out.old) (K.stream out.new) (S.children spawn.old) (S.children spawn.new) }
{
    for child in children {
        report.wait_for(alloc, child, out, spawn);
    }
}

/// Starts a child for each peer and then one for the broadcaster. Then it waits for all started children in this order, and prints each
/// status after the wait. After a refused start no other child is started. After a refused line no other line is printed.
pub fn run_children<K: Sink, S: Spawner>(
    alloc: Global,
    names: &SessionNames<'_>,
    peers: u16,
    out: &mut K,
    spawn: &mut S,
) -> Outcome
    ensures { SessionRan (names_view names.now) peers (K.stream out.old) (K.stream out.new)
        (S.children spawn.old) (S.children spawn.new) (code_of result) }
{
    let Ok(mut children) = Vec::with_capacity(alloc, usize::from(peers) + 1) else {
        return Outcome::NoMemory;
    };
    let outcome = start_all(alloc, names, peers, &mut children, spawn);
    let mut report = Report {
        outcome,
        prints: true,
    };
    wait_for_all(alloc, &children, &mut report, out, spawn);
    report.outcome
}
