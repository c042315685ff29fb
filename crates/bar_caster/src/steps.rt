//! How a broadcaster takes an input.
ghost use Rattle.std.specs.Prelude.{◌≡◌, ◌+◌, ◌*◌, ◌≤◌, ◌++◌, ◌∷◌, ◌↔◌, [], IsTrue, max, true};
ghost use Rattle.bar_core.specs.Code.Orders.{left_in};
ghost use Rattle.bar_wire.specs.Inputs.{plain_input};
ghost use Rattle.bar_rules.specs.Broadcaster.Sending.{caster_step};
ghost use Rattle.bar_laws.specs.Ignoring.{is_unread};
ghost use Rattle.bar_caster.specs.Code.Ignoring.{Ignores, StaysAsBefore};
ghost use Rattle.bar_caster.specs.Code.Memory.{IsOfTheSame, member_of, stream_of};
ghost use Rattle.bar_caster.specs.Code.StandsFor.{Inputs, StandsFor, AreLeft, log_of};

use crate::caster::Caster;
use bar_bytes::Steps;
use bar_seal::Scheme;
use bar_wire::Input;
use std::sync::ledger::Ledger as StepLedger;

impl<S: Scheme> Caster<S> {
    /// Whether all output of the last input was given out.
    pub fn idle(&self) -> bool
        ensures { IsTrue result ↔ (left_in self.now.orders ≡ []) }
    {
        self.orders.is_empty()
    }

    /// Takes an input, once all output of the previous one was given out. After its last tick a broadcaster ignores every input. It
    /// allocates no memory, and counts each hash of signatures, seeds and ranks.
    pub fn step<L: StepLedger>(&mut self, input: Input<'_>, steps: &mut Steps<L>)
        requires sends { left_in self.old.orders ≡ [] }
        ensures stands { (inputs : Inputs) → StandsFor self.old.memory inputs
            → StandsFor self.new.memory (inputs ++ plain_input input.entry ∷ []) }
        ensures sends { (inputs : Inputs) → StandsFor self.old.memory inputs
            → AreLeft self.new.memory self.new.orders (inputs ++ plain_input input.entry ∷ [])
            (caster_step (member_of self.old.memory) (stream_of self.old.memory) (log_of self.old.memory inputs)
            (plain_input input.entry)).sends }
        // bytes that don't decode change nothing, nor does a datagram that shows no fault of a party that isn't evicted yet
        ensures unread { is_unread self.old.memory.session (plain_input input.entry) ≡ true
            → StaysAsBefore self.old.memory self.new.memory self.new.orders }
        ensures ignored { Ignores self.old.memory (plain_input input.entry) self.new.memory self.new.orders }
        ensures same { IsOfTheSame self.old.memory self.new.memory }
        ensures scheme { self.new.scheme ≡ self.old.scheme }
        ensures cost { steps.new ≤ steps.old + max (self.old.memory.session.shape.per_round * self.old.memory.session.shape.peers)
            (2 * S.Verifier.most_steps self.old.scheme + self.old.memory.session.shape.rounds) }
    {
        if self.memory.is_over() {
            return;
        }
        self.orders.clear();
        match input {
            Input::Tick => self.take_tick(steps),
            Input::Datagram(bytes) => self.memory.take_datagram(&self.scheme, bytes, steps),
        }
    }
}
