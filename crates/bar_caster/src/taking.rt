//! How a broadcaster takes a datagram or a tick.
ghost use Rattle.std.specs.Prelude.{◌≡◌, ◌+◌, ◌*◌, ◌<◌, ◌≤◌, [], List, ℕ, true, false};
ghost use Rattle.bar_wire.specs.Datagram.{Evidence};
ghost use Rattle.bar_wire.specs.Evidence.{IsEvidence};
ghost use Rattle.bar_wire.specs.Inputs.{Tick};
ghost use Rattle.bar_wire.specs.Inputs.{Datagram as Arrival};
ghost use Rattle.bar_rules.specs.Broadcaster.Sending.{caster_take, judge_body, judge_datagram};
ghost use Rattle.bar_session.specs.Time.{last_tick};
ghost use Rattle.bar_rules.specs.Peer.Log.{Log};
ghost use Rattle.bar_rules.specs.Values.{datagram_of};
ghost use Rattle.bar_rules.specs.Verifiers.{IsVerifierOf, NamesLeavesOf};
ghost use Rattle.bar_laws.specs.Ignoring.{is_news, is_unread};
ghost use Rattle.bar_caster.specs.Code.Ignoring.{IgnoresInput, IsAsBefore};
ghost use Rattle.bar_caster.specs.Code.Memory.{Represents, IsOfTheSame, member_of, stream_of};
ghost use Rattle.bar_caster.specs.Code.Orders.{HasOutcome};
ghost use Rattle.bar_caster.specs.Code.StandsFor.{Inputs, StandsFor, log_of};
ghost use Rattle.bar_caster.specs.Code.Ticking.{begins_round};

use crate::caster::Caster;
use crate::item::Item;
use crate::memory::Memory;
use crate::sending::{send_blocks, send_to_all};
use bar_bytes::Steps;
use bar_judge::{Verdict, verdict};
use bar_laws::broadcasting::{shown_evidence_is_short, signs_once_a_round};
use bar_roster::slot_after;
use bar_seal::{Scheme, Verifier};
use bar_wire::{Body, HEADER_LEN, decode, split_evidence};
use std::sync::ledger::Ledger as StepLedger;

impl Memory {
    /// Judges evidence, encoded as the body of an EVIDENCE, under the lists of the rounds so far, and evicts the peer whose fault it shows.
    /// It counts each hash.
    fn judge<V: Verifier, L: StepLedger>(
        &mut self,
        verifier: &V,
        bytes: &[u8],
        steps: &mut Steps<L>,
    )
        requires verifier { IsVerifierOf self.old.session (V.is_accepted verifier.now) }
        requires names { NamesLeavesOf self.old.session (V.leaf_named verifier.now) (V.signature_len verifier.now) }
        ensures judged { (log : Log) (evidence : List (List ℕ)) → Represents log self.old → IsEvidence bytes.now evidence
            → Represents (judge_body (member_of self.old) (stream_of self.old) log (Evidence evidence)) self.new }
        ensures no_news { (log : Log) (evidence : List (List ℕ)) → Represents log self.old → IsEvidence bytes.now evidence
            → is_news (member_of self.old) (stream_of self.old) log (Evidence evidence) ≡ false → IsAsBefore self.old self.new }
        ensures ticks { self.new.ticks ≡ self.old.ticks }
        ensures same { IsOfTheSame self.old self.new }
        ensures cost { steps.new ≤ steps.old + (2 * V.most_steps verifier.now + self.old.session.shape.rounds) }
    {
        shown_evidence_is_short();
        let Ok(evidence) = split_evidence(bytes) else {
            return;
        };
        if let Verdict::Shown { party, .. } = verdict(
            &self.session,
            verifier,
            &self.table,
            &evidence,
            steps,
        ) {
            self.evictions.evict(party, &evidence);
        }
    }

    /// Takes a datagram. One that isn't evidence changes nothing. It counts each hash.
    pub fn take_datagram<V: Verifier, L: StepLedger>(
        &mut self,
        verifier: &V,
        bytes: &[u8],
        steps: &mut Steps<L>,
    )
        requires verifier { IsVerifierOf self.old.session (V.is_accepted verifier.now) }
        requires names { NamesLeavesOf self.old.session (V.leaf_named verifier.now) (V.signature_len verifier.now) }
        ensures judged { (log : Log) → Represents log self.old
            → Represents (judge_datagram (member_of self.old) (stream_of self.old) log (datagram_of self.old.session bytes.now)) self.new }
        ensures ignored { IgnoresInput (Arrival bytes.now) self.old self.new }
        ensures unread { is_unread self.old.session (Arrival bytes.now) ≡ true → IsAsBefore self.old self.new }
        ensures ticks { self.new.ticks ≡ self.old.ticks }
        ensures same { IsOfTheSame self.old self.new }
        ensures cost { steps.new ≤ steps.old + (2 * V.most_steps verifier.now + self.old.session.shape.rounds) }
    {
        let shape = self.session.shape();
        let Ok(view) = decode(bytes, &shape) else {
            return;
        };
        if let Body::Evidence { .. } = view.body {
            self.judge(verifier, &bytes[HEADER_LEN..], steps);
        }
    }
}

impl<S: Scheme> Caster<S> {
    /// Takes the tick that begins a round of the session. It sends the round's manifest to each peer that isn't evicted and then, if some
    /// peers are evicted, a notice of these.
    fn begin_round(&mut self)
        requires time { self.old.memory.ticks < last_tick self.old.memory.session }
        requires begins { begins_round self.old.memory.session self.old.memory.ticks ≡ true }
        requires empty { self.old.orders.list.items ≡ [] }
        ensures stands { (inputs : Inputs) → StandsFor self.old.memory inputs
            → HasOutcome (caster_take (member_of self.old.memory) (stream_of self.old.memory) (log_of self.old.memory inputs) Tick)
            self.new.memory self.new.orders }
        ensures given { self.new.orders.given ≡ self.old.orders.given }
        ensures same { IsOfTheSame self.old.memory self.new.memory }
        ensures scheme { self.new.scheme ≡ self.old.scheme }
    {
        signs_once_a_round();
        self.memory.begin_round(&self.scheme, &mut self.scratch);
        send_to_all(&self.memory, &mut self.orders, Item::Manifest);
        if self.memory.evictions.evicted().is_empty() {
            return;
        }
        self.memory.sign_notice(&self.scheme, &mut self.scratch);
        send_to_all(&self.memory, &mut self.orders, Item::Evictions);
    }

    /// Takes a tick that begins no round of the session. In slot 4 of a round the manifest is sent again, in slots 1 and 5 the blocks are
    /// sent. In version 3 the manifest of the previous round is sent again in slot 2. It counts one step for each block and peer.
    fn go_on<L: StepLedger>(&mut self, steps: &mut Steps<L>)
        requires time { self.old.memory.ticks < last_tick self.old.memory.session }
        requires begins { begins_round self.old.memory.session self.old.memory.ticks ≡ false }
        requires empty { self.old.orders.list.items ≡ [] }
        ensures stands { (inputs : Inputs) → StandsFor self.old.memory inputs
            → HasOutcome (caster_take (member_of self.old.memory) (stream_of self.old.memory) (log_of self.old.memory inputs) Tick)
            self.new.memory self.new.orders }
        ensures given { self.new.orders.given ≡ self.old.orders.given }
        ensures same { IsOfTheSame self.old.memory self.new.memory }
        ensures scheme { self.new.scheme ≡ self.old.scheme }
        ensures cost { steps.new ≤ steps.old
            + self.old.memory.session.shape.per_round * self.old.memory.session.shape.peers }
    {
        signs_once_a_round();
        self.memory.tick();
        if self.memory.says_again() {
            send_to_all(&self.memory, &mut self.orders, Item::ManifestBefore);
            return;
        }
        if self.memory.round() > self.memory.session.shape().rounds {
            return;
        }
        match slot_after(self.memory.ticks) {
            1 | 5 => send_blocks(&self.memory, &mut self.ranks, &mut self.orders, steps),
            4 => send_to_all(&self.memory, &mut self.orders, Item::Manifest),
            _ => {}
        }
    }

    /// Takes a tick. It counts one step for each block and peer.
    pub(crate) fn take_tick<L: StepLedger>(&mut self, steps: &mut Steps<L>)
        requires time { self.old.memory.ticks < last_tick self.old.memory.session }
        requires empty { self.old.orders.list.items ≡ [] }
        ensures stands { (inputs : Inputs) → StandsFor self.old.memory inputs
            → HasOutcome (caster_take (member_of self.old.memory) (stream_of self.old.memory) (log_of self.old.memory inputs) Tick)
            self.new.memory self.new.orders }
        ensures given { self.new.orders.given ≡ self.old.orders.given }
        ensures same { IsOfTheSame self.old.memory self.new.memory }
        ensures scheme { self.new.scheme ≡ self.old.scheme }
        ensures cost { steps.new ≤ steps.old
            + self.old.memory.session.shape.per_round * self.old.memory.session.shape.peers }
    {
        if self.memory.begins_round() {
            self.begin_round();
        } else {
            self.go_on(steps);
        }
    }
}
