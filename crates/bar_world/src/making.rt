//! The start of a world.
ghost use Rattle.std.specs.Prelude.{◌≡◌, ◌*◌, ◌≤◌, ℕ, [], true, false, length, replicate, slice_get, Some, None, IfOk};
ghost use Rattle.bar_wire.specs.Limits.{largest_content};
ghost use Rattle.bar_roster.specs.declared.key_file.KeyFile.{KeyFile as Key};
ghost use Rattle.bar_roster.specs.KeyFile.{IsKeyFileOf};
ghost use Rattle.bar_rules.specs.Members.{member_by};
ghost use Rattle.bar_rules.specs.World.World.{IsSetup};
ghost use Rattle.bar_caster.specs.Code.Core.{caster_rules, face_of as caster_face};
ghost use Rattle.bar_caster.specs.Code.StandsFor.{StandsFor as CasterTook};
ghost use Rattle.bar_peer.specs.Core.{peer_rules, face_of as peer_face};
ghost use Rattle.bar_peer.specs.Code.StandsFor.{StandsFor as PeerTook};
ghost use Rattle.bar_world.specs.Code.Cores.{IsNewCore};
ghost use Rattle.bar_world.specs.Keys.{AreMade, held_in};
ghost use Rattle.bar_world.specs.Code.Setups.{AreOfParties, setup_of};
ghost use Rattle.bar_world.specs.Code.Kept.{IsReady, StandsFor};
ghost use Rattle.bar_world.specs.Code.Texts.{texts};

use crate::keys::keys_of;
use crate::world::World;
use bar_caster::Caster;
use bar_hss::{PartyKey, SessionScheme};
use bar_peer::Peer;
use bar_roster::{KeyFile, Session};
use bar_seeds::Secrets;
use bar_wire::LARGEST_DATAGRAM;
use std::alloc::{AllocError, Global};

/// The broadcaster of a session, before any input.
fn start_caster(
    alloc: Global,
    session: &Session,
    key: KeyFile,
    stream: Vec<u8>,
) -> Result<Caster<SessionScheme>, AllocError>
    requires single { session.now.top ≡ None }
    requires key { IsKeyFileOf session.now true key }
    requires room { length stream.items ≤ session.now.shape.rounds * session.now.shape.per_round * largest_content }
    ensures { IfOk result (λ caster. IsNewCore (caster_rules (member_by session.now key.secrets) stream.items) (CasterTook caster.memory)
        (caster_face caster.memory caster.orders)) }
{
    let key = PartyKey::single(key);
    Caster::of_key(alloc, session.copied(alloc)?, key, stream).map_err(|_| AllocError)
}

/// A peer of a session, before any input.
fn start_peer(
    alloc: Global,
    session: &Session,
    key: KeyFile,
) -> Result<Peer<SessionScheme>, AllocError>
    requires single { session.now.top ≡ None }
    requires key { IsKeyFileOf session.now false key }
    ensures { IfOk result (λ peer. IsNewCore (peer_rules (member_by session.now key.secrets)) (PeerTook peer.memory)
        (peer_face peer.memory peer.orders peer.playing)) }
{
    Peer::of_key(alloc, session.copied(alloc)?, PartyKey::single(key))
}

/// The peers of a session, in the order of their key files.
fn start_peers(
    alloc: Global,
    session: &Session,
    keys: Vec<KeyFile>,
) -> Result<Vec<Peer<SessionScheme>>, AllocError>
    requires single { session.now.top ≡ None }
    requires keys { (i : ℕ) (key : Key) → slice_get keys.items i ≡ Some key → IsKeyFileOf session.now false key }
    ensures count { IfOk result (λ peers. length peers.items ≡ length keys.items) }
    ensures peers { IfOk result (λ peers. (i : ℕ) (peer : _) (key : Key) → slice_get peers.items i ≡ Some peer →
        slice_get keys.items i ≡ Some key → IsNewCore (peer_rules (member_by session.now key.secrets)) (PeerTook peer.memory)
        (peer_face peer.memory peer.orders peer.playing)) }
{
    let mut peers = Vec::new(alloc);
    for key in keys {
        peers.push(start_peer(alloc, session, key)?)?;
    }
    Ok(peers)
}

/// A list of `count` empty byte lists.
fn empty_texts(alloc: Global, count: usize) -> Result<Vec<Vec<u8>>, AllocError>
    ensures { IfOk result (λ list. texts list.items ≡ replicate count []) }
{
    let mut list = Vec::new(alloc);
    for _ in 0..count {
        list.push(Vec::new(alloc))?;
    }
    Ok(list)
}

impl World {
    /// The world of a session whose signatures have one level, before the first move. It contains the parties of these secrets, the
    /// broadcaster's first, and its stream. All the parties' memory is allocated here.
    pub fn make(
        alloc: Global,
        session: &Session,
        secrets: &[Secrets],
        stream: Vec<u8>,
    ) -> Result<World, AllocError>
        requires single { session.now.top ≡ None }
        requires setup { IsSetup (setup_of session.now secrets.now stream.items) }
        requires parties { AreOfParties session.now secrets.now }
        requires room { length stream.items ≤ session.now.shape.rounds * session.now.shape.per_round * largest_content }
        ensures ready { IfOk result (λ world. IsReady world) }
        ensures stands { IfOk result (λ world. StandsFor (setup_of session.now secrets.now stream.items) [] world) }
    {
        let keys = keys_of(alloc, session.params(), session.shape().rounds, secrets)?;
        World::of_keys(alloc, session, keys, stream)
    }

    /// The same world, made from the parties' key files, the broadcaster's first.
    pub(crate) fn of_keys(
        alloc: Global,
        session: &Session,
        mut keys: Vec<KeyFile>,
        stream: Vec<u8>,
    ) -> Result<World, AllocError>
        requires single { session.now.top ≡ None }
        requires made { AreMade session.now.params session.now.shape.rounds keys.items }
        requires setup { IsSetup (setup_of session.now (held_in keys.items) stream.items) }
        requires parties { AreOfParties session.now (held_in keys.items) }
        requires room { length stream.items ≤ session.now.shape.rounds * session.now.shape.per_round * largest_content }
        ensures ready { IfOk result (λ world. IsReady world) }
        ensures stands { IfOk result (λ world. StandsFor (setup_of session.now (held_in keys.items) stream.items) [] world) }
    {
        let played = empty_texts(alloc, keys.len())?;
        let caster = start_caster(alloc, session, keys.remove(0), stream)?;
        let peers = start_peers(alloc, session, keys)?;
        let buf = vec![in alloc; 0; usize::from(LARGEST_DATAGRAM)]?;
        Ok(World {
            alloc,
            caster,
            peers,
            played,
            pool: Vec::new(alloc),
            buf,
        })
    }
}
