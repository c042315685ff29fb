//! A broadcaster as an implementation of `Core`.
ghost use Rattle.std.specs.Prelude.{◌≡◌, ◌<◌, ◌++◌, ◌∷◌, []};
ghost use Rattle.bar_core.specs.Code.Orders.{left_in};
ghost use Rattle.bar_wire.specs.Inputs.{plain_input};
ghost use Rattle.bar_rules.specs.Broadcaster.Sending.{caster_step};
ghost use Rattle.bar_caster.specs.Code.Memory.{IsOfTheSame, member_of, stream_of};
ghost use Rattle.bar_caster.specs.Code.StandsFor.{Inputs, StandsFor, AreLeft, log_of};

use crate::caster::Caster;
use bar_bytes::{Rooms, Steps};
use bar_core::Core;
use bar_laws::broadcasting::signs_once_a_round;
use bar_seal::Scheme;
use bar_wire::{Input, Shape};
use std::marker::Brand;
use std::sync::ledger::{Blank, Ledger};

// Takes an input and discards the count of steps.
fn take_uncounted<S: Scheme, L: Ledger>(caster: &mut Caster<S>, input: Input<'_>, blank: Blank)
    requires name { blank.name ≡ L.name }
    requires parts { blank.parts ≡ L.parts }
    requires some { 0 < L.parts }
    requires sends { left_in caster.old.orders ≡ [] }
    ensures stands { (inputs : Inputs) → StandsFor caster.old.memory inputs
        → StandsFor caster.new.memory (inputs ++ plain_input input.entry ∷ []) }
    ensures sends { (inputs : Inputs) → StandsFor caster.old.memory inputs
        → AreLeft caster.new.memory caster.new.orders (inputs ++ plain_input input.entry ∷ [])
        (caster_step (member_of caster.old.memory) (stream_of caster.old.memory) (log_of caster.old.memory inputs)
        (plain_input input.entry)).sends }
    ensures same { IsOfTheSame caster.old.memory caster.new.memory }
{
    caster.step(input, &mut Steps::<L>::new(blank));
}

impl<S: Scheme> Core for Caster<S> {
    ghost use Rattle.std.proofs.Common.{sym, ◌∙◌};
    ghost use Rattle.bar_caster.specs.Code.Core.{Owes, face_of};
    ghost use Rattle.bar_caster.specs.Code.Time.{last_tick-small, log-time};

    ghost stands = { λ c inputs. StandsFor c.memory inputs };

    ghost owes = { λ c inputs sends. Owes c.memory c.orders inputs sends };

    ghost face = { λ c. face_of c.memory c.orders };

    fn take(&mut self, input: Input<'_>) {
        take_uncounted::<S, Brand>(self, input, Blank::new(1));
    }

    fn give_content(&mut self, _buf: &mut [u8]) -> Option<usize> {
        None
    }

    fn give_datagram(&mut self, buf: &mut [u8]) -> Option<(u16, usize)> {
        let (to, len) = self.next_out(buf)?;
        Some((to, len.min(buf.len())))
    }

    fn ticks_taken(&self) -> u32 {
        self.memory.ticks
    }

    fn is_over(&self) -> bool {
        self.memory.is_over()
    }

    fn session_shape(&self) -> Shape {
        self.shape()
    }

    fn kept_manifests(&self) -> &Rooms {
        signs_once_a_round();
        self.manifests()
    }

    fn evidence_by_party(&self) -> &Rooms {
        self.kept_evidence()
    }

    ghost timed = { λ c inputs stands. sym stands.time ∙ log-time (member_of c.memory) (stream_of c.memory) inputs };

    ghost few = { λ c. last_tick-small (member_of c.memory) c.memory.is_broadcaster };
}
