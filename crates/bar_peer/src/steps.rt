//! How a peer takes an input.
ghost use Rattle.std.specs.Prelude.{◌≡◌, ◌+◌, ◌*◌, ◌≤◌, ◌++◌, ◌∷◌, ◌↔◌, [], true, false, nat_le, IsTrue};
ghost use Rattle.bar_seeds.specs.Code.Checkpoints.{MovesOn};
ghost use Rattle.bar_seal.specs.Code.Memo.{has_pair};
ghost use Rattle.bar_wire.specs.Inputs.{plain_input};
ghost use Rattle.bar_session.specs.Time.{last_tick};
ghost use Rattle.bar_rules.specs.Peer.Knowledge.{known};
ghost use Rattle.bar_rules.specs.Peer.Log.{Log};
ghost use Rattle.bar_rules.specs.Peer.Run.{log_after, step};
ghost use Rattle.bar_rules.specs.Peer.Ticks.{contents_at_tick};
ghost use Rattle.bar_peer.specs.Code.Checking.{Checks, IsCheckedOnce, IsGuardOf, IsSeedKept, RemembersAdmitted, StandsFirst};
ghost use Rattle.bar_peer.specs.Code.Checking.{bytes_in, checked_in, datagram_in, round_in, sender_in, shown_in, shows_seed};
ghost use Rattle.bar_laws.specs.Ignoring.{is_unread};
ghost use Rattle.bar_peer.specs.Code.Ignoring.{Ignores, IgnoresInput, StaysAsBefore};
ghost use Rattle.bar_peer.specs.Code.Memory.{member_of, Represents};
ghost use Rattle.bar_core.specs.Code.Orders.{left_in, HasSameRoom};
ghost use Rattle.bar_peer.specs.Code.StandsFor.{Inputs, StandsFor, AreLeft, contents_left};
ghost use Rattle.bar_peer.specs.Code.Steps.{TakesInput, is_tick};

use crate::guard::Guard;
use crate::intake::{take_datagram, take_tick};
use crate::memory::Memory;
use crate::order::Order;
use crate::peer::Peer;
use crate::playing::Playing;
use bar_bytes::Steps;
use bar_core::Orders;
use bar_laws::evidence::bad_keys_leave_evidence;
use bar_laws::ignoring::ignored_datagrams_change_nothing;
use bar_laws::knowing::knowledge_is_enough;
use bar_laws::obedience::signed_by_rule;
use bar_roster::slot_after;
use bar_seal::{Scheme, Verifier};
use bar_wire::Input;
use std::sync::ledger::Ledger as StepLedger;

impl Memory {
    /// Whether the last tick was taken.
    pub fn is_over(&self) -> bool
        ensures { result ≡ nat_le (last_tick self.now.who.session) self.now.ticks }
    {
        self.ticks >= self.who.session.last_tick()
    }
}

/// Whether an input is a tick.
fn is_tick(input: &Input<'_>) -> bool
    ensures { result ≡ is_tick (plain_input input.now) }
{
    match input {
        Input::Tick => true,
        Input::Datagram(_) => false,
    }
}

/// Takes an input before the last tick was taken. It counts each hash. Returns true only if the memory is unchanged.
#[tactic(auto, using(crate::proofs::Stepping::Guards::checks_none))]
fn take_input<V: Verifier, L: StepLedger>(
    memory: &mut Memory,
    orders: &mut Orders<Order>,
    guard: &mut Guard<V>,
    input: Input<'_>,
    steps: &mut Steps<L>,
) -> bool
    requires before { nat_le (last_tick memory.old.who.session) memory.old.ticks ≡ false }
    requires guard { IsGuardOf memory.old.who.session guard.old }
    ensures stands { TakesInput (plain_input input.entry) memory.old orders.old memory.new orders.new }
    ensures ignored { IgnoresInput (plain_input input.entry) memory.old memory.new }
    ensures same { result ≡ true → memory.new ≡ memory.old }
    ensures unread { is_unread memory.old.who.session (plain_input input.entry) ≡ true
        → (memory.new ≡ memory.old) × (orders.new ≡ orders.old) × (guard.new ≡ guard.old) }
    ensures room { HasSameRoom orders.old orders.new }
    ensures who { memory.new.who ≡ memory.old.who }
    ensures checks { Checks memory.old.who.session (shown_in memory.old.who.session (plain_input input.entry)) 2
        guard.old guard.new steps.old steps.new }
    ensures remembers { RemembersAdmitted memory.old (bytes_in (plain_input input.entry))
        (datagram_in memory.old.who.session (plain_input input.entry)) guard.old guard.new }
    ensures tick { is_tick (plain_input input.entry) ≡ true → (guard.new ≡ guard.old) × (steps.new ≡ steps.old) }
{
    match input {
        Input::Tick => {
            take_tick(memory, orders);
            false
        }
        Input::Datagram(bytes) => take_datagram(memory, orders, guard, bytes, steps),
    }
}

impl Memory {
    /// What the last tick plays: at the first slot of a round, the updates of the round whose life ended.
    fn played_now(&self) -> Playing
        ensures { (log : Log) → Represents log self.now
            → contents_left self.now.store result ≡ contents_at_tick (member_of self.now.who) (known (member_of self.now.who) log) }
    {
        let session = &self.who.session;
        let shape = session.shape();
        let round = self.round().saturating_sub(u32::from(shape.life));
        if slot_after(self.ticks) != 0 || round < 1 || round > shape.rounds {
            return Playing::none();
        }
        Playing::of_round(round, shape.per_round)
    }
}

impl<S: Scheme> Peer<S> {
    /// Whether all output of the last input was given out.
    pub fn idle(&self) -> bool
        ensures { IsTrue result ↔ ((left_in self.now.orders ≡ []) × (contents_left self.now.memory.store self.now.playing ≡ [])) }
    {
        self.orders.is_empty() && self.playing.is_over(&self.memory)
    }

    /// Takes an input, once all output of the previous one was given out. After its last tick a peer ignores every input. It allocates no
    /// memory. It counts each hash: at most those of one verification, twice the steps along the seeds from the round of a REQUEST or a
    /// QUERY, and 128 more. A datagram that is remembered as accepted isn't verified.
    #[tactic(auto, using(bar_seeds::proofs::CheckpointLemmas::moves_none))]
    pub fn step<L: StepLedger>(&mut self, input: Input<'_>, steps: &mut Steps<L>)
        requires sends { left_in self.old.orders ≡ [] }
        requires contents { contents_left self.old.memory.store self.old.playing ≡ [] }
        ensures stands { (inputs : Inputs) → StandsFor self.old.memory inputs
            → StandsFor self.new.memory (inputs ++ plain_input input.entry ∷ []) }
        ensures sends { (inputs : Inputs) → StandsFor self.old.memory inputs
            → AreLeft self.new.memory self.new.orders (inputs ++ plain_input input.entry ∷ [])
            (step (member_of self.old.memory.who)
            (log_after (member_of self.old.memory.who) [] inputs) (plain_input input.entry)).sends }
        ensures contents { (inputs : Inputs) → StandsFor self.old.memory inputs
            → contents_left self.new.memory.store self.new.playing
            ≡ (step (member_of self.old.memory.who) (log_after (member_of self.old.memory.who) [] inputs)
            (plain_input input.entry)).contents }
        // bytes that don't decode change nothing; an ignored datagram changes at most the memo and the kept seeds
        ensures unread { is_unread self.old.memory.who.session (plain_input input.entry) ≡ true
            → StaysAsBefore self.old.memory self.new.memory self.new.orders self.new.playing
            × (self.new.guard ≡ self.old.guard) }
        ensures ignored { Ignores self.old.memory (plain_input input.entry) self.new.memory self.new.orders self.new.playing }
        ensures who { self.new.memory.who ≡ self.old.memory.who }
        ensures verifier { self.new.guard.checker.verifier ≡ self.old.guard.checker.verifier }
        // the most hashes that it takes, and the most if the datagram is remembered
        ensures most { steps.new ≤ steps.old + (S.Verifier.most_steps self.old.guard.checker.verifier
            + 2 * round_in self.old.memory.who.session (plain_input input.entry) + 128) }
        ensures remembered { has_pair (checked_in self.old.memory.who.session (plain_input input.entry)) self.old.guard.checker.memo.pairs ≡ true
            → shows_seed self.old.memory.who.session (plain_input input.entry) ≡ false → steps.new ≤ steps.old + 128 }
        // what is remembered of checked datagrams and of the peers' seeds
        ensures memo { IsCheckedOnce (checked_in self.old.memory.who.session (plain_input input.entry))
            self.old.guard.checker.memo self.new.guard.checker.memo }
        ensures first { StandsFirst self.old.memory (plain_input input.entry) self.new.guard.checker.memo }
        ensures moves { MovesOn (sender_in self.old.memory.who.session (plain_input input.entry)) self.old.guard.points self.new.guard.points }
        // a tick checks nothing, keeps no seed, and counts no hash
        ensures tick { is_tick (plain_input input.entry) ≡ true → (self.new.guard ≡ self.old.guard) × (steps.new ≡ steps.old) }
        ensures reached { IsSeedKept self.old.memory (plain_input input.entry) self.new.guard.points }
    {
        knowledge_is_enough();
        signed_by_rule();
        bad_keys_leave_evidence();
        ignored_datagrams_change_nothing();
        if self.memory.is_over() {
            return;
        }
        self.orders.clear();
        let is_tick = is_tick(&input);
        let is_same = take_input(
            &mut self.memory,
            &mut self.orders,
            &mut self.guard,
            input,
            steps,
        );
        self.cases.keep_while(is_same);
        self.playing = if is_tick {
            self.memory.played_now()
        } else {
            Playing::none()
        };
    }
}
