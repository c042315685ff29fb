//! A peer as an implementation of `Core`.
ghost use Rattle.std.specs.Prelude.{◌≡◌, ◌<◌, ◌++◌, ◌∷◌, []};
ghost use Rattle.bar_core.specs.Code.Orders.{left_in};
ghost use Rattle.bar_wire.specs.Inputs.{plain_input};
ghost use Rattle.bar_rules.specs.Peer.Run.{log_after, step};
ghost use Rattle.bar_peer.specs.Code.Memory.{member_of};
ghost use Rattle.bar_peer.specs.Code.StandsFor.{Inputs, StandsFor, AreLeft, contents_left};

use crate::peer::Peer;
use bar_bytes::{Rooms, Steps, put};
use bar_core::Core;
use bar_laws::rooms::datagrams_fit_their_rooms;
use bar_seal::Scheme;
use bar_wire::{Input, Shape};
use std::marker::Brand;
use std::sync::ledger::{Blank, Ledger};

// Takes an input and discards the count of steps.
fn take_uncounted<S: Scheme, L: Ledger>(peer: &mut Peer<S>, input: Input<'_>, blank: Blank)
    requires name { blank.name ≡ L.name }
    requires parts { blank.parts ≡ L.parts }
    requires some { 0 < L.parts }
    requires sends { left_in peer.old.orders ≡ [] }
    requires contents { contents_left peer.old.memory.store peer.old.playing ≡ [] }
    ensures stands { (inputs : Inputs) → StandsFor peer.old.memory inputs
        → StandsFor peer.new.memory (inputs ++ plain_input input.entry ∷ []) }
    ensures sends { (inputs : Inputs) → StandsFor peer.old.memory inputs
        → AreLeft peer.new.memory peer.new.orders (inputs ++ plain_input input.entry ∷ [])
        (step (member_of peer.old.memory.who)
        (log_after (member_of peer.old.memory.who) [] inputs) (plain_input input.entry)).sends }
    ensures contents { (inputs : Inputs) → StandsFor peer.old.memory inputs
        → contents_left peer.new.memory.store peer.new.playing
        ≡ (step (member_of peer.old.memory.who) (log_after (member_of peer.old.memory.who) [] inputs)
        (plain_input input.entry)).contents }
    ensures who { peer.new.memory.who ≡ peer.old.memory.who }
{
    peer.step(input, &mut Steps::<L>::new(blank));
}

impl<S: Scheme> Core for Peer<S> {
    ghost use Rattle.std.proofs.Common.{sym, ◌∙◌};
    ghost use Rattle.bar_peer.specs.Core.{Owes, face_of};
    ghost use Rattle.bar_peer.specs.Code.Time.{last_tick-small, log-time};

    ghost stands = { λ p inputs. StandsFor p.memory inputs };

    ghost owes = { λ p inputs sends. Owes p.memory p.orders inputs sends };

    ghost face = { λ p. face_of p.memory p.orders p.playing };

    fn take(&mut self, input: Input<'_>) {
        take_uncounted::<S, Brand>(self, input, Blank::new(1));
    }

    fn give_content(&mut self, buf: &mut [u8]) -> Option<usize> {
        let content = self.next_played()?;
        let len = content.len().min(buf.len());
        Some(put(buf, 0, &content[..len]))
    }

    fn give_datagram(&mut self, buf: &mut [u8]) -> Option<(u16, usize)> {
        let (to, len) = self.next_out(buf)?;
        Some((to, len.min(buf.len())))
    }

    fn ticks_taken(&self) -> u32 {
        self.memory.ticks
    }

    fn is_over(&self) -> bool {
        self.memory.is_over()
    }

    fn session_shape(&self) -> Shape {
        self.shape()
    }

    fn kept_manifests(&self) -> &Rooms {
        datagrams_fit_their_rooms();
        self.manifests()
    }

    fn evidence_by_party(&self) -> &Rooms {
        self.kept_evidence()
    }

    ghost timed = { λ p inputs stands. sym stands.time ∙ log-time (member_of p.memory.who) inputs };

    ghost few = { λ p. last_tick-small (member_of p.memory.who) p.memory.who.is_member };
}
