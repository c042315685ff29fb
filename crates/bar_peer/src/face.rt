//! The public view of a peer: its session, time, manifests, evidence and totals.
ghost use Rattle.std.specs.Prelude.{◌≡◌, ◌↔◌, ◌+◌, ℕ, [], true, length, nat_le, IsTrue, option_copied, option_map};
ghost use Rattle.bar_bytes.specs.Code.Rooms.{kept_in};
ghost use Rattle.bar_terms.specs.Code.Windows.{AreAligned};
ghost use Rattle.bar_ledger.specs.Code.Totals.{AreSound};
ghost use Rattle.bar_wire.specs.Evidence.{evidence_bytes};
ghost use Rattle.bar_session.specs.Sessions.{IsSession};
ghost use Rattle.bar_session.specs.Time.{last_tick};
ghost use Rattle.bar_rules.specs.Values.{datagram_bytes};
ghost use Rattle.bar_rules.specs.Peer.Knowledge.{Knowledge, known};
ghost use Rattle.bar_rules.specs.Peer.Run.{log_after};
ghost use Rattle.bar_laws.specs.Rewriting.{IsRewritten};
ghost use Rattle.bar_laws.specs.Soundness.{IsSound};
ghost use Rattle.bar_peer.specs.Code.Memory.{member_of, IsMemoryOf};
ghost use Rattle.bar_peer.specs.Code.StandsFor.{Inputs, StandsFor};
ghost use Rattle.bar_peer.specs.Code.Telling.{AreTotals, AreTotalsAfter};

use crate::memory::Memory;
use crate::peer::Peer;
use bar_bytes::Rooms;
use bar_exchange::are_aligned;
use bar_laws::balance::balanced;
use bar_laws::memories::logs_are_sound;
use bar_laws::obedience::signed_by_rule;
use bar_laws::rewriting::what_was_said_is_written_again;
use bar_ledger::Totals;
use bar_seal::Scheme;
use bar_terms::can_promise;
use bar_window::{Exchange, Terms};
use bar_wire::Shape;

/// Whether the windows of terms cover the same rounds.
fn have_same_rounds(terms: &Terms) -> bool
    ensures { IsTrue result ↔ AreAligned terms.now }
{
    match terms {
        Terms::Balanced { ha, hb, .. } => are_aligned(ha, hb),
        Terms::Push {
            young,
            aged,
            want,
            give,
            ..
        } => are_aligned(aged, young) && are_aligned(want, young) && are_aligned(give, young),
    }
}

/// Whether the windows of terms cover the same rounds, and each side can promise something by them.
fn are_sound(terms: &Terms, cap: u8) -> bool
    ensures sound { result ≡ true → AreSound cap terms.now }
    ensures complete { AreSound cap terms.now → result ≡ true }
{
    have_same_rounds(terms) && can_promise(terms, cap)
}

impl Memory {
    /// The totals of what was promised, received and opened in an exchange; zeros if the exchange isn't kept.
    fn totals(&self, x: Exchange) -> Totals
        ensures { (k : Knowledge) → IsMemoryOf (member_of self.now.who) k self.now → IsSound (member_of self.now.who) k
            → IsRewritten (member_of self.now.who) k → AreTotals (member_of self.now.who) k x result }
    {
        let none = Totals {
            promised: 0,
            received: 0,
            opened: 0,
        };
        let ledger = &self.ledger;
        let Some(entry) = ledger.find(x) else {
            return none;
        };
        if !entry.case_said || !are_sound(&entry.terms, ledger.cap()) {
            return none;
        }
        ledger.totals(x)
    }
}

impl<S: Scheme> Peer<S> {
    /// The sizes and limits of the session's datagrams.
    pub fn shape(&self) -> Shape
        ensures value { result ≡ self.now.memory.who.session.shape }
        ensures session { IsSession self.now.memory.who.session }
    {
        self.memory.who.session.shape()
    }

    /// How many ticks were taken.
    pub fn ticks(&self) -> u32
        ensures { (inputs : Inputs) → StandsFor self.now.memory inputs
            → result ≡ (known (member_of self.now.memory.who) (log_after (member_of self.now.memory.who) [] inputs)).ticks }
    {
        self.memory.ticks
    }

    /// Whether the last tick was taken.
    pub fn over(&self) -> bool
        ensures { (inputs : Inputs) → StandsFor self.now.memory inputs → result ≡ nat_le (last_tick self.now.memory.who.session)
            (known (member_of self.now.memory.who) (log_after (member_of self.now.memory.who) [] inputs)).ticks }
    {
        self.memory.is_over()
    }

    /// The datagram of the manifest of a round, or `None` if none was admitted.
    pub fn manifest(&self, round: u32) -> Option<&[u8]>
        ensures { (inputs : Inputs) → StandsFor self.now.memory inputs → option_copied result
            ≡ option_map (datagram_bytes self.now.memory.who.session)
            ((known (member_of self.now.memory.who) (log_after (member_of self.now.memory.who) [] inputs)).manifest round) }
    {
        self.memory.manifests.get(round as usize)
    }

    /// The datagrams of the manifests that were admitted, by round.
    pub fn manifests(&self) -> &Rooms
        ensures kept { (inputs : Inputs) → StandsFor self.now.memory inputs → (round : ℕ) → kept_in result.now round
            ≡ option_map (datagram_bytes self.now.memory.who.session)
            ((known (member_of self.now.memory.who) (log_after (member_of self.now.memory.who) [] inputs)).manifest round) }
        ensures count { length result.now.rooms.items ≡ self.now.memory.who.session.shape.rounds + 1 }
    {
        &self.memory.manifests
    }

    /// The evidence that is kept, by party, encoded as the body of an EVIDENCE.
    pub fn kept_evidence(&self) -> &Rooms
        ensures kept { (inputs : Inputs) → StandsFor self.now.memory inputs → (party : ℕ) → kept_in result.now party
            ≡ option_map evidence_bytes
            ((known (member_of self.now.memory.who) (log_after (member_of self.now.memory.who) [] inputs)).evidence party) }
        ensures count { length result.now.rooms.items ≡ self.now.memory.who.session.shape.peers + 1 }
    {
        &self.memory.evidence
    }

    /// The evidence that is kept against a party, encoded as the body of an EVIDENCE, or `None` if none is kept.
    pub fn evidence(&self, party: u16) -> Option<&[u8]>
        ensures { (inputs : Inputs) → StandsFor self.now.memory inputs → option_copied result
            ≡ option_map evidence_bytes
            ((known (member_of self.now.memory.who) (log_after (member_of self.now.memory.who) [] inputs)).evidence party) }
    {
        self.memory.evidence.get(usize::from(party))
    }

    /// How many items this peer promised in an exchange, was promised, and sent a key for. Zeros once the exchange can't be asked about any
    /// more.
    pub fn totals(&self, x: Exchange) -> Totals
        ensures { (inputs : Inputs) → StandsFor self.now.memory inputs
            → AreTotalsAfter (member_of self.now.memory.who) inputs x result }
    {
        balanced();
        logs_are_sound();
        signed_by_rule();
        what_was_said_is_written_again();
        self.memory.totals(x)
    }
}
