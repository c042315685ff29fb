//! The public view of a broadcaster: its session, time, evictions and manifests.
ghost use Rattle.std.specs.Prelude.{◌≡◌, ◌+◌, ℕ, None, Contains, length, nat_le, option_copied, option_map};
ghost use Rattle.bar_bytes.specs.Code.Rooms.{kept_in};
ghost use Rattle.bar_wire.specs.Evidence.{evidence_bytes};
ghost use Rattle.bar_wire.specs.declared.kind.Kind.TheVariants.{Manifest};
ghost use Rattle.bar_session.specs.Sessions.{IsSession};
ghost use Rattle.bar_rules.specs.Broadcaster.Sending.{evicted};
ghost use Rattle.bar_session.specs.Time.{last_tick};
ghost use Rattle.bar_rules.specs.Peer.Log.{kept, ticks};
ghost use Rattle.bar_rules.specs.Values.{datagram_bytes};
ghost use Rattle.bar_caster.specs.Code.Memory.{said_of};
ghost use Rattle.bar_caster.specs.Code.StandsFor.{Inputs, StandsFor, log_of};

use crate::caster::Caster;
use bar_bytes::Rooms;
use bar_laws::broadcasting::evicts_exactly_the_shown;
use bar_seal::Scheme;
use bar_wire::Shape;

impl<S: Scheme> Caster<S> {
    /// The sizes and limits of the session's datagrams.
    pub fn shape(&self) -> Shape
        ensures value { result ≡ self.now.memory.session.shape }
        ensures session { IsSession self.now.memory.session }
    {
        self.memory.session.shape()
    }

    /// How many ticks were taken.
    pub fn ticks(&self) -> u32
        ensures { (inputs : Inputs) → StandsFor self.now.memory inputs → result ≡ ticks (log_of self.now.memory inputs) }
    {
        self.memory.ticks
    }

    /// Whether the last tick was taken.
    pub fn over(&self) -> bool
        ensures { (inputs : Inputs) → StandsFor self.now.memory inputs
            → result ≡ nat_le (last_tick self.now.memory.session) (ticks (log_of self.now.memory inputs)) }
    {
        self.memory.is_over()
    }

    /// The evicted peers, in increasing order.
    pub fn evicted(&self) -> &[u16]
        ensures { (inputs : Inputs) → StandsFor self.now.memory inputs
            → result.now ≡ evicted self.now.memory.session (log_of self.now.memory inputs) }
    {
        self.memory.evictions.evicted()
    }

    /// The first accepted evidence against an evicted party, encoded as the body of an EVIDENCE, or `None` for every other number.
    pub fn evidence(&self, party: u16) -> Option<&[u8]>
        ensures kept { (inputs : Inputs) → StandsFor self.now.memory inputs
            → option_copied result ≡ option_map evidence_bytes (kept (log_of self.now.memory inputs) party) }
        ensures others { (inputs : Inputs) → StandsFor self.now.memory inputs
            → (¬ Contains (evicted self.now.memory.session (log_of self.now.memory inputs)) party) → result ≡ None }
    {
        evicts_exactly_the_shown();
        self.memory.evictions.evidence(party)
    }

    /// The first accepted evidence against each evicted party, by its number, encoded as the body of an EVIDENCE. Other numbers have none.
    pub fn kept_evidence(&self) -> &Rooms
        ensures kept { (inputs : Inputs) → StandsFor self.now.memory inputs → (party : ℕ)
            → kept_in result.now party ≡ option_map evidence_bytes (kept (log_of self.now.memory inputs) party) }
        ensures count { length result.now.rooms.items ≡ self.now.memory.session.shape.peers + 1 }
    {
        evicts_exactly_the_shown();
        self.memory.evictions.kept()
    }

    /// The datagram of the manifest of a round, as signed, or `None` if none was signed.
    pub fn manifest(&self, round: u32) -> Option<&[u8]>
        ensures { (inputs : Inputs) → StandsFor self.now.memory inputs → option_copied result
            ≡ option_map (datagram_bytes self.now.memory.session) (said_of Manifest round (log_of self.now.memory inputs)) }
    {
        self.memory.manifests.get(round as usize)
    }

    /// The datagrams of the manifests that were signed, by round.
    pub fn manifests(&self) -> &Rooms
        ensures kept { (inputs : Inputs) → StandsFor self.now.memory inputs → (round : ℕ) → kept_in result.now round
            ≡ option_map (datagram_bytes self.now.memory.session) (said_of Manifest round (log_of self.now.memory inputs)) }
        ensures count { length result.now.rooms.items ≡ self.now.memory.session.shape.rounds + 1 }
    {
        &self.memory.manifests
    }
}
