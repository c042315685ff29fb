//! The peers to which the block of an update is sent.

ghost use Rattle.std.specs.Prelude.{◌≡◌, ◌+◌, ◌<◌, ◌≤◌, ◌^◌, length};
ghost use Rattle.std.specs.Ordering.{ordering_then, is_lt, nat_cmp};
ghost use Rattle.std.specs.Cmp.Lexicographic.{slice_cmp};
ghost use Rattle.bar_window.specs.declared.update.UpdateId.{UpdateId};
ghost use Rattle.bar_rules.specs.Member.{Member};
ghost use Rattle.bar_rules.specs.Broadcaster.Stream.{rank_of};
ghost use Rattle.bar_caster.specs.Code.Fanout.{HasSecret, AreRanksOf, AreRanksBy, count_before};

use bar_bytes::{Steps, Tagged};
use bar_window::UpdateId;
use std::alloc::{AllocError, Global};
use std::marker::Model;
use std::sync::ledger::Ledger;

/// The ranks of the peers for one update, starting with peer 1.
#[derive(Drop)]
pub struct Ranks {
    ranks: Vec<[u8; 32]>,
}

impl Model for Ranks {
    ghost use Rattle.std.specs.Prelude.{ℕ, ◌<◌, ◌^◌, List, length};

    ghost Value = { List (List ℕ) };

    ghost view = { λ r. r.ranks.items };

    ghost invariant = { λ r. length r.ranks.items < 2 ^ 16 };
}

/// The rank of a peer for an update, in the session with this id, computed with the broadcaster's secret.
#[tactic(auto, unfolding(bar_rules::specs::Broadcaster::Stream::rank_of, bar_bytes::specs::Bytes::u16_bytes, bar_bytes::specs::Bytes::u32_bytes))]
fn rank(id: &[u8; 8], secret: &[u8; 32], update: UpdateId, peer: u16) -> [u8; 32]
    ensures { (me : Member) → HasSecret me id.now secret.now → result ≡ rank_of me update peer }
{
    let mut hash = Tagged::new(b"FAN1", id);
    hash.add(&update.round.to_be_bytes());
    hash.add(&[update.index]);
    hash.add(&peer.to_be_bytes());
    hash.add(secret);
    hash.finish()
}

/// Computes the rank of each peer. It counts one step for each.
fn fill_ranks<L: Ledger>(
    ranks: &mut [[u8; 32]],
    id: &[u8; 8],
    secret: &[u8; 32],
    update: UpdateId,
    steps: &mut Steps<L>,
)
    requires few { length ranks.old < 2 ^ 16 }
    ensures ranks { AreRanksBy id.now secret.now update ranks.new }
    ensures cost { steps.new ≡ steps.old + length ranks.old }
{
    for i in 0..ranks.len() {
        ranks[i] = rank(id, secret, update, i as u16 + 1);
        steps.tick();
    }
}

/// Whether a peer precedes another: by rank, and if the ranks are equal by number.
fn stands_before(rank: &[u8; 32], peer: u16, other_rank: &[u8; 32], other: u16) -> bool
    ensures { result ≡ is_lt (ordering_then (slice_cmp nat_cmp rank.now other_rank.now) (nat_cmp peer other)) }
{
    rank.cmp(other_rank).then(peer.cmp(&other)).is_lt()
}

/// How many peers precede a peer, given the ranks of all.
fn count_before(ranks: &[[u8; 32]], peer: u16) -> usize
    requires first { 1 ≤ peer }
    requires last { peer ≤ length ranks.now }
    requires few { length ranks.now < 2 ^ 16 }
    ensures { (me : Member) (u : UpdateId) → AreRanksOf me u ranks.now → result ≡ count_before me u me.session.shape.peers peer }
{
    let mine = &ranks[usize::from(peer) - 1];
    let mut before = 0;
    for i in 0..ranks.len() {
        if stands_before(&ranks[i], i as u16 + 1, mine, peer) {
            before += 1;
        }
    }
    before
}

impl Ranks {
    ghost use Rattle.std.specs.Prelude.{◌≡◌, ◌+◌, ◌≤◌, length, IfOk};
    ghost use Rattle.bar_window.specs.declared.update.UpdateId.{UpdateId};
    ghost use Rattle.bar_rules.specs.Member.{Member};
    ghost use Rattle.bar_rules.specs.Broadcaster.Stream.{is_in_fanout};
    ghost use Rattle.bar_caster.specs.Code.Fanout.{AreRanksOf, AreRanksBy};

    /// Room for the ranks of `peers` peers.
    pub fn make(alloc: Global, peers: u16) -> Result<Ranks, AllocError>
        ensures { IfOk result (λ r. length r ≡ peers) }
    {
        let ranks = vec![in alloc; [0; 32]; usize::from(peers)]?;
        Ok(Ranks { ranks })
    }

    /// Computes the rank of each peer for an update, in the session with this id, with the broadcaster's secret. It counts one step for
    /// each peer.
    pub fn fill<L: Ledger>(
        &mut self,
        id: &[u8; 8],
        secret: &[u8; 32],
        update: UpdateId,
        steps: &mut Steps<L>,
    )
        ensures ranks { AreRanksBy id.now secret.now update self.new }
        ensures count { length self.new ≡ length self.old }
        ensures cost { steps.new ≡ steps.old + length self.old }
    {
        fill_ranks(&mut self.ranks, id, secret, update, steps);
    }

    /// Whether a peer is among the first `fanout` peers by the ranks that were computed last. That update's block is sent to these.
    pub fn is_sent_to(&self, fanout: u16, peer: u16) -> bool
        requires first { 1 ≤ peer }
        requires last { peer ≤ length self.now }
        ensures { (me : Member) (u : UpdateId) → AreRanksOf me u self.now → fanout ≡ me.session.fanout → result ≡ is_in_fanout me u peer }
    {
        count_before(&self.ranks, peer) < usize::from(fanout)
    }
}
