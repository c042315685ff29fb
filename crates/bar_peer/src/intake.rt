//! How a peer takes a datagram or a tick.
ghost use Rattle.std.specs.Prelude.{◌≡◌, ◌≤◌, ◌<◌, [], ◌+◌, None, Some, true, false, is_some, length};
ghost use Rattle.bar_peer.specs.Code.Checking.{Checks, ChecksSeed, IsGuardOf, RemembersAdmitted, shown_by, shown_in};
ghost use Rattle.bar_wire.specs.Inputs as event;
ghost use Rattle.bar_wire.specs.Bodies.{is_peer_kind};
ghost use Rattle.bar_wire.specs.Datagram.{Datagram};
ghost use Rattle.bar_wire.specs.Code.Views.{plain};
ghost use Rattle.bar_session.specs.Time.{last_tick};
ghost use Rattle.bar_rules.specs.Member.{Member};
ghost use Rattle.bar_rules.specs.Peer.Admission.{is_admitted as admitted};
ghost use Rattle.bar_rules.specs.Peer.Evidence.{is_tried, new_evidence};
ghost use Rattle.bar_rules.specs.Peer.Knowledge.{known};
ghost use Rattle.bar_rules.specs.Peer.Log.{Log};
ghost use Rattle.bar_rules.specs.Peer.Replies.{repeated};
ghost use Rattle.bar_rules.specs.Peer.Rules.{IsObedient};
ghost use Rattle.bar_rules.specs.Peer.Run.{answered_to, take_datagram, with_evidence};
ghost use Rattle.bar_rules.specs.Values.{datagram_of};
ghost use Rattle.bar_laws.specs.Evidence.{CatchesBadKeys};
ghost use Rattle.bar_laws.specs.Ignoring.{is_unread, tells_nothing};
ghost use Rattle.bar_peer.specs.Code.Ignoring.{IgnoresInput, LeavesMemory};
ghost use Rattle.bar_peer.specs.Code.Arrivals.{IsReadBy, datagram_by};
ghost use Rattle.bar_peer.specs.Code.Memory.{member_of, HasOtherEvidence, Represents, IsSameParty};
ghost use Rattle.bar_peer.specs.Code.Sending.{HasOutcome};
ghost use Rattle.bar_peer.specs.Code.Steps.{TakesTick, TakesDatagram};
ghost use Rattle.bar_core.specs.Code.Orders.{HasSameRoom};

use crate::answers::says_to;
use crate::arrival::Arrival;
use crate::guard::Guard;
use crate::memory::Memory;
use crate::order::Order;
use crate::queue::reply;
use crate::search::Search;
use crate::ticks::act;
use bar_bytes::Steps;
use bar_core::{Orders, keep_evidence};
use bar_laws::knowing::knowledge_is_enough;
use bar_laws::memories::logs_are_sound;
use bar_laws::rooms::evidence_fits_its_room;
use bar_seal::Verifier;
use bar_wire::{bytes_spell_one, decode, place_of};
use std::sync::ledger::Ledger as StepLedger;

/// Takes a tick, and queues the orders that it gives.
pub fn take_tick(memory: &mut Memory, orders: &mut Orders<Order>)
    requires { memory.old.ticks < last_tick memory.old.who.session }
    ensures stands { TakesTick memory.old orders.old memory.new orders.new }
    ensures room { HasSameRoom orders.old orders.new }
    ensures who { memory.new.who ≡ memory.old.who }
    ensures ticks { memory.new.ticks ≡ memory.old.ticks + 1 }
{
    memory.tick();
    act(memory, orders);
}

impl Memory {
    /// Keeps the evidence that a datagram with an accepted signature completes, and returns whether there is some. It counts the steps
    /// along the seeds.
    fn keep_found<V: Verifier, L: StepLedger>(
        &mut self,
        guard: &mut Guard<V>,
        arrival: &Arrival<'_>,
        steps: &mut Steps<L>,
    ) -> bool
        requires view { IsReadBy self.old.who arrival.now }
        requires guard { IsGuardOf self.old.who.session guard.old }
        requires signed { is_peer_kind (plain arrival.now.view.body) ≡ true }
        ensures kept { (log : Log) → let me : Member = member_of self.old.who in let d : Datagram = datagram_by self.old.who arrival.now in
            CatchesBadKeys me log → IsObedient me (with_evidence me log d.message.from (new_evidence me (known me log) d))
            → IsObedient me log → Represents log self.old
            → is_tried me (known me log) d ≡ true
            → (result ≡ is_some (new_evidence me (known me log) d))
            × Represents (with_evidence me log d.message.from (new_evidence me (known me log) d)) self.new }
        ensures none { result ≡ false → self.new ≡ self.old }
        ensures rest { HasOtherEvidence self.old self.new }
        ensures checks { ChecksSeed self.old.who.session (shown_by self.old.who arrival.now) guard.old guard.new steps.old steps.new }
    {
        knowledge_is_enough();
        logs_are_sound();
        evidence_fits_its_room();
        let search = Search {
            who: &self.who,
            table: self.store.table(),
            ledger: &self.ledger,
            arrival,
        };
        match search.find(guard, steps) {
            Some(evidence) => {
                keep_evidence(&mut self.evidence, arrival.view.from, &evidence);
                true
            }
            None => false,
        }
    }
}

/// If a datagram is admitted, records and answers it; if it is a repeat, answers it again. Returns true only if the memory is unchanged.
fn answer(
    memory: &mut Memory,
    orders: &mut Orders<Order>,
    arrival: &Arrival<'_>,
    is_admitted: bool,
) -> bool
    requires view { IsReadBy memory.old.who arrival.now }
    ensures stands { (log : Log)
        → IsObedient (member_of memory.old.who)
        (answered_to (member_of memory.old.who) log (datagram_by memory.old.who arrival.now)).state
        → Represents log memory.old
        → is_admitted ≡ admitted (member_of memory.old.who) (known (member_of memory.old.who) log)
        (datagram_by memory.old.who arrival.now)
        → orders.old.list.items ≡ [] → 2 ≤ orders.old.room
        → HasOutcome (answered_to (member_of memory.old.who) log (datagram_by memory.old.who arrival.now)) memory.new orders.new }
    ensures idle { (log : Log) → IsObedient (member_of memory.old.who) log → Represents log memory.old → is_admitted ≡ false
        → repeated (member_of memory.old.who) (known (member_of memory.old.who) log) (datagram_by memory.old.who arrival.now) ≡ None
        → memory.new ≡ memory.old }
    ensures same { result ≡ true → memory.new ≡ memory.old }
    ensures length { orders.old.list.items ≡ [] → length orders.new.list.items ≤ 2 }
    ensures room { HasSameRoom orders.old orders.new }
    ensures party { IsSameParty memory.old memory.new }
{
    logs_are_sound();
    bytes_spell_one();
    if is_admitted {
        memory.hear(arrival);
        let says = says_to(memory, arrival, true);
        reply(memory, orders, says);
        false
    } else if memory.is_repeat(arrival) {
        let says = says_to(memory, arrival, false);
        reply(memory, orders, says)
    } else {
        true
    }
}

/// Searches a datagram with an accepted signature for evidence and keeps it, then answers the datagram and reports the evidence. It counts
/// the steps along the seeds. Returns true only if the memory is unchanged.
fn answer_tried<V: Verifier, L: StepLedger>(
    memory: &mut Memory,
    orders: &mut Orders<Order>,
    guard: &mut Guard<V>,
    arrival: &Arrival<'_>,
    is_admitted: bool,
    steps: &mut Steps<L>,
) -> bool
    requires view { IsReadBy memory.old.who arrival.now }
    requires guard { IsGuardOf memory.old.who.session guard.old }
    requires signed { is_peer_kind (plain arrival.now.view.body) ≡ true }
    ensures stands { (log : Log) → CatchesBadKeys (member_of memory.old.who) log
        → IsObedient (member_of memory.old.who)
        (take_datagram (member_of memory.old.who) log (Some (datagram_by memory.old.who arrival.now))).state
        → Represents log memory.old
        → is_tried (member_of memory.old.who) (known (member_of memory.old.who) log) (datagram_by memory.old.who arrival.now) ≡ true
        → is_admitted ≡ admitted (member_of memory.old.who) (known (member_of memory.old.who) log)
        (datagram_by memory.old.who arrival.now)
        → orders.old.list.items ≡ [] → 3 ≤ orders.old.room
        → HasOutcome (take_datagram (member_of memory.old.who) log (Some (datagram_by memory.old.who arrival.now)))
        memory.new orders.new }
    ensures idle { is_admitted ≡ false → (log : Log) → CatchesBadKeys (member_of memory.old.who) log
        → IsObedient (member_of memory.old.who) log → Represents log memory.old
        → is_tried (member_of memory.old.who) (known (member_of memory.old.who) log) (datagram_by memory.old.who arrival.now) ≡ true
        → tells_nothing (member_of memory.old.who) (known (member_of memory.old.who) log) (datagram_by memory.old.who arrival.now) ≡ true
        → memory.new ≡ memory.old }
    ensures same { result ≡ true → memory.new ≡ memory.old }
    ensures room { HasSameRoom orders.old orders.new }
    ensures party { IsSameParty memory.old memory.new }
    ensures checks { ChecksSeed memory.old.who.session (shown_by memory.old.who arrival.now) guard.old guard.new steps.old steps.new }
{
    knowledge_is_enough();
    logs_are_sound();
    let is_found = memory.keep_found(guard, arrival, steps);
    let is_same = answer(memory, orders, arrival, is_admitted);
    if is_found {
        orders.push(Order::Report(arrival.view.from));
        false
    } else {
        is_same
    }
}

/// Takes a decoded datagram. It searches for evidence and keeps it; then it records the datagram if it is admitted, answers it, and reports
/// the evidence. At most one signature is verified. It counts each hash. Returns true only if the memory is unchanged.
fn take_arrival<V: Verifier, L: StepLedger>(
    memory: &mut Memory,
    orders: &mut Orders<Order>,
    guard: &mut Guard<V>,
    arrival: &Arrival<'_>,
    steps: &mut Steps<L>,
) -> bool
    requires view { IsReadBy memory.old.who arrival.now }
    requires guard { IsGuardOf memory.old.who.session guard.old }
    ensures stands { (log : Log) → CatchesBadKeys (member_of memory.old.who) log
        → IsObedient (member_of memory.old.who)
        (take_datagram (member_of memory.old.who) log (Some (datagram_by memory.old.who arrival.now))).state
        → Represents log memory.old → orders.old.list.items ≡ [] → 3 ≤ orders.old.room
        → HasOutcome (take_datagram (member_of memory.old.who) log (Some (datagram_by memory.old.who arrival.now)))
        memory.new orders.new }
    ensures idle { LeavesMemory (datagram_by memory.old.who arrival.now) memory.old memory.new }
    ensures same { result ≡ true → memory.new ≡ memory.old }
    ensures room { HasSameRoom orders.old orders.new }
    ensures party { IsSameParty memory.old memory.new }
    ensures checks { Checks memory.old.who.session (shown_by memory.old.who arrival.now) 2 guard.old guard.new steps.old steps.new }
    ensures remembers { RemembersAdmitted memory.old arrival.now.bytes.now (Some (datagram_by memory.old.who arrival.now))
        guard.old guard.new }
{
    knowledge_is_enough();
    logs_are_sound();
    let weighed = memory.weigh(guard, arrival, steps);
    if weighed.is_tried {
        answer_tried(memory, orders, guard, arrival, weighed.is_admitted, steps)
    } else {
        answer(memory, orders, arrival, weighed.is_admitted)
    }
}

/// Takes the bytes of a datagram. Bytes that don't decode change nothing. It counts each hash. Returns true only if the memory is
/// unchanged.
#[tactic(auto, using(crate::proofs::Stepping::Guards::checks_none))]
pub fn take_datagram<V: Verifier, L: StepLedger>(
    memory: &mut Memory,
    orders: &mut Orders<Order>,
    guard: &mut Guard<V>,
    bytes: &[u8],
    steps: &mut Steps<L>,
) -> bool
    requires guard { IsGuardOf memory.old.who.session guard.old }
    ensures stands { TakesDatagram bytes.now memory.old orders.old memory.new orders.new }
    ensures ignored { IgnoresInput (event.Datagram bytes.now) memory.old memory.new }
    ensures same { result ≡ true → memory.new ≡ memory.old }
    ensures unread { is_unread memory.old.who.session (event.Datagram bytes.now) ≡ true
        → (memory.new ≡ memory.old) × (orders.new ≡ orders.old) × (guard.new ≡ guard.old) }
    ensures room { HasSameRoom orders.old orders.new }
    ensures party { IsSameParty memory.old memory.new }
    ensures checks { Checks memory.old.who.session (shown_in memory.old.who.session (event.Datagram bytes.now)) 2
        guard.old guard.new steps.old steps.new }
    ensures remembers { RemembersAdmitted memory.old bytes.now (datagram_of memory.old.who.session bytes.now) guard.old guard.new }
{
    knowledge_is_enough();
    logs_are_sound();
    let session = &memory.who.session;
    let shape = session.shape();
    if let Ok(view) = decode(bytes, &shape) {
        let place = place_of(&view);
        let arrival = Arrival { bytes, view, place };
        take_arrival(memory, orders, guard, &arrival, steps)
    } else {
        true
    }
}
