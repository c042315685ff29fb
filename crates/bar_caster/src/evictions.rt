ghost use Rattle.std.specs.Prelude.{◌≡◌, ◌+◌, ◌≤◌, length, vec_capacity};
ghost use Rattle.bar_caster.specs.Code.Listed.{peers_with_evidence};

use bar_bytes::Rooms;
use bar_core::keep_evidence;
use bar_wire::EvidenceView;
use std::alloc::{AllocError, Global};

/// The evicted peers in increasing order, and the first accepted evidence against each. All memory is allocated when it is made.
#[derive(Drop)]
pub struct Evictions {
    peers: u16,
    list: Vec<u16>,
    /// The evidence against each party, encoded as the body of an EVIDENCE.
    evidence: Rooms,
    ghost list_room: { peers ≤ vec_capacity list },
    ghost rooms: { length evidence.rooms.items ≡ peers + 1 },
    ghost few: { length list.items ≤ peers },
}

/// Lists the peers against which evidence is kept, in order.
fn list_evicted(list: &mut Vec<u16>, evidence: &Rooms, peers: u16)
    requires { peers ≤ vec_capacity list.old }
    ensures listed { list.new.items ≡ peers_with_evidence evidence.now peers }
    ensures room { vec_capacity list.old ≤ vec_capacity list.new }
    ensures few { length list.new.items ≤ peers }
{
    list.clear();
    for before in 0..peers {
        let party = before + 1;
        if evidence.get(usize::from(party)).is_some() {
            let Ok(()) = list.push(party) else {
                unreachable!()
            };
        }
    }
}

impl Evictions {
    ghost use Rattle.std.specs.Prelude.{◌≡◌, ◌<◌, ◌≤◌, [], None, true, is_some, length, IfOk, option_copied, ◌∷◌};
    ghost use Rattle.bar_bytes.specs.Code.Rooms.{kept_in};
    ghost use Rattle.bar_wire.specs.Evidence.{datagrams_of, evidence_bytes};
    ghost use Rattle.bar_wire.specs.Grammar.{AreDatagramsInRange};
    ghost use Rattle.bar_rules.specs.Member.{Session};
    ghost use Rattle.bar_rules.specs.Peer.Log.{Log, Kept, kept};
    ghost use Rattle.bar_caster.specs.Code.Evictions.{AreOfLog};

    /// No evictions, with room for those of all peers, each with evidence of at most `size` bytes.
    pub fn make(alloc: Global, peers: u16, size: usize) -> Result<Evictions, AllocError>
        ensures empty { IfOk result (λ e. (s : Session) → s.shape.peers ≡ peers → AreOfLog s e []) }
        ensures size { IfOk result (λ e. e.evidence.size ≡ size) }
        ensures peers { IfOk result (λ e. e.peers ≡ peers) }
    {
        let list = Vec::with_capacity(alloc, usize::from(peers))?;
        let evidence = Rooms::make(alloc, usize::from(peers) + 1, size)?;
        Ok(Evictions {
            peers,
            list,
            evidence,
        })
    }

    /// The evicted peers, in increasing order.
    pub fn evicted(&self) -> &[u16]
        ensures { result.now ≡ self.now.list.items }
    {
        &self.list
    }

    /// The evidence that is kept against a party, encoded as the body of an EVIDENCE.
    pub fn evidence(&self, party: u16) -> Option<&[u8]>
        ensures { option_copied result ≡ kept_in self.now.evidence party }
    {
        self.evidence.get(usize::from(party))
    }

    /// The evidence that is kept, by party.
    pub fn kept(&self) -> &Rooms
        ensures { result.now ≡ self.now.evidence }
    {
        &self.evidence
    }

    /// Whether evidence is kept against a party.
    pub fn is_evicted(&self, party: u16) -> bool
        ensures { result ≡ is_some (kept_in self.now.evidence party) }
    {
        self.evidence(party).is_some()
    }

    /// Evicts a peer on this evidence, if it isn't evicted yet and the evidence fits its room.
    pub fn evict(&mut self, party: u16, evidence: &EvidenceView<'_>)
        ensures kept { (s : Session) (log : Log) → AreOfLog s self.old log → kept log party ≡ None
            → AreDatagramsInRange (datagrams_of evidence.now) → length (evidence_bytes (datagrams_of evidence.now)) ≤ self.old.evidence.size
            → AreOfLog s self.new (Kept party (datagrams_of evidence.now) ∷ log) }
        ensures again { (s : Session) (log : Log) → AreOfLog s self.old log → is_some (kept log party) ≡ true → self.new ≡ self.old }
        ensures unfit { self.old.evidence.size < length (evidence_bytes (datagrams_of evidence.now))
            → self.new.evidence ≡ self.old.evidence }
        ensures size { self.new.evidence.size ≡ self.old.evidence.size }
        ensures peers { self.new.peers ≡ self.old.peers }
    {
        if party == 0 || self.peers < party {
            return;
        }
        if self.is_evicted(party) {
            return;
        }
        keep_evidence(&mut self.evidence, party, evidence);
        list_evicted(&mut self.list, &self.evidence, self.peers);
    }
}
