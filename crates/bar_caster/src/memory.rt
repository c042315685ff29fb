ghost use Rattle.std.specs.Prelude.{◌≡◌, ◌+◌, ◌≤◌, length};
ghost use Rattle.bar_wire.specs.declared.kind.Kind.TheVariants.{Manifest, Evict};
ghost use Rattle.bar_rules.specs.Broadcaster.Party.{IsBroadcaster};
ghost use Rattle.bar_session.specs.Time.{last_tick, round_after};
ghost use Rattle.bar_rules.specs.Members.{member_by};
ghost use Rattle.bar_rules.specs.Peer.Sizes.{largest, most_evidence};

use crate::evictions::Evictions;
use crate::stream::Stream;
use bar_bytes::{Room, Rooms};
use bar_roster::{Session, round_after};
use bar_seeds::Secrets;
use bar_terms::Table;

/// What a broadcaster knows: its session and secret, the stream, what it signed, and whom it evicted. All memory is allocated when it is
/// made.
#[derive(Drop)]
pub struct Memory {
    pub session: Session,
    pub secrets: Secrets,
    pub stream: Stream,
    /// How many ticks were taken.
    pub ticks: u32,
    /// The lists of the rounds that have begun.
    pub table: Table,
    /// The datagram of each round's manifest, as signed.
    pub manifests: Rooms,
    /// The datagram of the last notice of evictions, as signed.
    pub notice: Room,
    pub evictions: Evictions,
    ghost same_session: { secrets.id ≡ session.shape.id },
    ghost is_broadcaster: { IsBroadcaster (member_by session secrets) },
    ghost same_rounds: { stream.per_round ≡ session.shape.per_round },
    ghost in_time: { ticks ≤ last_tick session },
    ghost table_rounds: { table.rounds ≡ session.shape.rounds },
    ghost table_lists: { table.per_round ≡ session.shape.per_round },
    ghost manifest_rooms: { length manifests.rooms.items ≡ session.shape.rounds + 1 },
    ghost manifest_size: { manifests.size ≡ largest session.shape Manifest },
    ghost notice_size: { notice.size ≡ largest session.shape Evict },
    ghost evicted_peers: { evictions.peers ≡ session.shape.peers },
    ghost evidence_size: { evictions.evidence.size ≡ most_evidence session.shape },
}

impl Memory {
    ghost use Rattle.std.specs.Prelude.{◌≡◌, nat_le};
    ghost use Rattle.bar_session.specs.Time.{last_tick, round_after};

    /// The current round.
    pub fn round(&self) -> u32
        ensures { result ≡ round_after self.now.ticks }
    {
        round_after(self.ticks)
    }

    /// Whether the last tick was taken.
    pub fn is_over(&self) -> bool
        ensures { result ≡ nat_le (last_tick self.now.session) self.now.ticks }
    {
        self.ticks >= self.session.last_tick()
    }
}
