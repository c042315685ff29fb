ghost use Rattle.std.specs.Prelude.{◌≡◌, ◌+◌, ◌≤◌, length};
ghost use Rattle.bar_wire.specs.declared.kind.Kind.TheVariants.{Manifest};
ghost use Rattle.bar_session.specs.Time.{last_tick, round_after};
ghost use Rattle.bar_rules.specs.Peer.Sizes.{largest, most_evidence};

use crate::credentials::Credentials;
use crate::evictions::Evictions;
use bar_bytes::Rooms;
use bar_ledger::Ledger;
use bar_roster::round_after;
use bar_store::Store;
use bar_window::Exchange;

/// What a peer knows: the stream, its exchanges, evictions and evidence. All memory is allocated when it is made.
#[derive(Drop)]
pub struct Memory {
    pub who: Credentials,
    /// How many ticks were taken.
    pub ticks: u32,
    pub store: Store,
    /// The datagram of each round's manifest, as received.
    pub manifests: Rooms,
    pub ledger: Ledger,
    pub evictions: Evictions,
    /// The evidence that is kept against each party, encoded as the body of an EVIDENCE.
    pub evidence: Rooms,
    ghost in_time: { ticks ≤ last_tick who.session },
    ghost table_rounds: { store.table.rounds ≡ who.session.shape.rounds },
    ghost table_lists: { store.table.per_round ≡ who.session.shape.per_round },
    ghost store_round: { store.round ≡ round_after ticks },
    ghost ledger_round: { ledger.round ≡ round_after ticks },
    ghost manifest_rooms: { length manifests.rooms.items ≡ who.session.shape.rounds + 1 },
    ghost manifest_size: { manifests.size ≡ largest who.session.shape Manifest },
    ghost eviction_rounds: { length evictions.rounds.items ≡ who.session.shape.rounds + 1 },
    ghost eviction_parties: { length evictions.parties.items ≡ who.session.shape.peers + 1 },
    ghost evidence_rooms: { length evidence.rooms.items ≡ who.session.shape.peers + 1 },
    ghost evidence_size: { evidence.size ≡ most_evidence who.session.shape },
}

impl Memory {
    ghost use Rattle.std.specs.Prelude.{◌≡◌};
    ghost use Rattle.bar_rules.specs.Peer.Exchanges.{partner_in};
    ghost use Rattle.bar_peer.specs.Code.Memory.{member_of};

    /// The current round.
    pub fn round(&self) -> u32
        ensures { result ≡ round_after self.now.ticks }
    {
        round_after(self.ticks)
    }

    /// This peer's partner in an exchange.
    pub fn partner_in(&self, x: Exchange) -> u16
        ensures { result ≡ partner_in (member_of self.now.who) x }
    {
        if x.initiator == self.who.secrets.party {
            x.responder
        } else {
            x.initiator
        }
    }
}
