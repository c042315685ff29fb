//! The start of a broadcaster.
ghost use Rattle.std.specs.Prelude.{◌≡◌, ◌+◌, ◌*◌, ◌<◌, ◌≤◌, [], Err, IfErr, IfOk, length};
ghost use Rattle.bar_wire.specs.Limits.{largest_content};
ghost use Rattle.bar_rules.specs.Broadcaster.Party.{IsBroadcaster};
ghost use Rattle.bar_rules.specs.Members.{member_by};
ghost use Rattle.bar_rules.specs.Signers.{IsSignerOf};
ghost use Rattle.bar_rules.specs.Verifiers.{IsVerifierOf, NamesLeavesOf};
ghost use Rattle.bar_core.specs.Code.Orders.{left_in};
ghost use Rattle.bar_caster.specs.Code.Memory.{stream_of};
ghost use Rattle.bar_caster.specs.Code.StandsFor.{StandsFor};
ghost use Rattle.bar_caster.specs.Code.Ticking.{most_orders};
ghost use Rattle.bar_caster.specs.declared.fault.CasterFault.TheVariants as faults;

use crate::caster::Caster;
use crate::evictions::Evictions;
use crate::fanout::Ranks;
use crate::fault::CasterFault;
use crate::memory::Memory;
use crate::stream::Stream;
use bar_bytes::{Room, Rooms};
use bar_core::Orders;
use bar_roster::Session;
use bar_seal::Scheme;
use bar_seeds::Secrets;
use bar_store::{largest_evict, largest_manifest, most_evidence};
use bar_terms::Table;
use bar_wire::LARGEST_DATAGRAM;
use std::alloc::{AllocError, Global};

/// An upper bound on the orders of an input: each block of a round, a manifest and a notice, to each peer.
fn most_orders(session: &Session) -> usize
    ensures { result ≡ most_orders session.now }
{
    let shape = session.shape();
    (2 + usize::from(shape.per_round)) * usize::from(shape.peers)
}

/// A buffer of `len` bytes.
fn buffer(alloc: Global, len: usize) -> Result<Vec<u8>, AllocError>
    ensures { IfOk result (λ v. length v.items ≡ len) }
{
    Ok(vec![in alloc; 0; len]?)
}

impl Memory {
    /// The memory of a broadcaster before any input. All of it is allocated here, except the stream's.
    fn make(
        alloc: Global,
        session: Session,
        secrets: Secrets,
        stream: Vec<u8>,
    ) -> Result<Memory, AllocError>
        requires id { secrets.id ≡ session.shape.id }
        requires broadcaster { IsBroadcaster (member_by session secrets) }
        ensures stands { IfOk result (λ m. StandsFor m []) }
        ensures session { IfOk result (λ m. m.session ≡ session) }
        ensures secrets { IfOk result (λ m. m.secrets ≡ secrets) }
        ensures stream { IfOk result (λ m. m.stream.bytes ≡ stream) }
    {
        let shape = session.shape();
        let table = Table::make(alloc, shape.rounds, shape.per_round)?;
        let manifests = Rooms::make(alloc, shape.rounds as usize + 1, largest_manifest(&shape))?;
        let notice = Room::make(alloc, largest_evict(&shape))?;
        let evictions = Evictions::make(alloc, shape.peers, most_evidence(&shape))?;
        Ok(Memory {
            session,
            secrets,
            stream: Stream::new(stream, shape.per_round),
            ticks: 0,
            table,
            manifests,
            notice,
            evictions,
        })
    }
}

impl<S: Scheme + Drop> Caster<S> {
    /// The broadcaster of a session before any input, with its secrets, its signature scheme, and the stream. All memory is allocated here.
    ///
    /// # Errors
    ///
    /// `TooLong`, with both numbers, if and only if the stream has more bytes than the session's rounds have room for; else `NoMemory` if
    /// an allocation fails.
    pub fn start(
        alloc: Global,
        session: Session,
        secrets: Secrets,
        scheme: S,
        stream: Vec<u8>,
    ) -> Result<Caster<S>, CasterFault>
        requires id { secrets.id ≡ session.shape.id }
        requires broadcaster { IsBroadcaster (member_by session secrets) }
        requires verifies { IsVerifierOf session (S.Verifier.is_accepted scheme) }
        requires names { NamesLeavesOf session (S.Verifier.leaf_named scheme) (S.Verifier.signature_len scheme) }
        requires signs { IsSignerOf (member_by session secrets) (S.signed scheme) (S.leaf_count scheme) (S.Verifier.signature_len scheme) }
        ensures stands { IfOk result (λ c. StandsFor c.memory []) }
        ensures sends { IfOk result (λ c. left_in c.orders ≡ []) }
        ensures session { IfOk result (λ c. c.memory.session ≡ session) }
        ensures secrets { IfOk result (λ c. c.memory.secrets ≡ secrets) }
        ensures stream { IfOk result (λ c. stream_of c.memory ≡ stream.items) }
        ensures scheme { IfOk result (λ c. c.scheme ≡ scheme) }
        ensures too_long { session.shape.rounds * session.shape.per_round * largest_content < length stream.items
            → result ≡ Err (faults.TooLong (length stream.items) (session.shape.rounds * session.shape.per_round * largest_content)) }
        ensures fits { length stream.items ≤ session.shape.rounds * session.shape.per_round * largest_content
            → IfErr result (λ e. e ≡ faults.NoMemory) }
    {
        let shape = session.shape();
        let room = Stream::room(shape.rounds, shape.per_round);
        let have = stream.len() as u64;
        if have > room {
            return Err(CasterFault::TooLong { have, room });
        }
        let orders = Orders::make(alloc, most_orders(&session))?;
        let ranks = Ranks::make(alloc, shape.peers)?;
        let scratch = buffer(alloc, usize::from(LARGEST_DATAGRAM))?;
        let memory = Memory::make(alloc, session, secrets, stream)?;
        Ok(Caster {
            memory,
            scheme,
            orders,
            ranks,
            scratch,
        })
    }
}
