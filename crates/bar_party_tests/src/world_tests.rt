//! Tests of a world: all parties of a session together, over moves.
ghost use Rattle.bar_wire.specs.Limits.{largest_content};
ghost use Rattle.bar_rules.specs.World.World.{IsSetup};
ghost use Rattle.bar_world.specs.Code.Kept.{IsReady};
ghost use Rattle.bar_world.specs.Made.{AreNumbers, session_by};
ghost use Rattle.bar_world.specs.Code.Setups.{AreOfParties, setup_of};
ghost use Rattle.std.specs.Prelude.{◌≡◌, ℕ, ◌+◌, ◌*◌, ◌≤◌, List, length, None, IfOk, OnOk};

use bar_lms::{Height, Ots, Params};
use bar_roster::Session;
use bar_samples::sessions::ID;
use bar_seeds::Secrets;
use bar_wire::Shape;
use bar_world::{Move, Numbers, World, keys_of, run_world, session};
use std::alloc::{AllocError, Global};
use std::process::Abort;
use std::test::Fail;

/// LMS type 6 and LM-OTS type 3, whose signatures have 2,508 bytes.
const PARAMS: Params = Params {
    height: Height::H10,
    ots: Ots::W4,
};

/// The numbers of the sessions that aren't in their datagrams' shape.
const NUMBERS: Numbers = Numbers {
    cap: 16,
    fanout: 1,
    port: 1024,
    tick_ms: 1,
    params: PARAMS,
};

/// The secrets of the broadcaster and two peers.
const THREE: [Secrets; 3] = [
    Secrets {
        id: ID,
        party: 0,
        secret: [1; 32],
    },
    Secrets {
        id: ID,
        party: 1,
        secret: [2; 32],
    },
    Secrets {
        id: ID,
        party: 2,
        secret: [3; 32],
    },
];

const STREAM_LEN: usize = 4000;

/// The session of these numbers whose parties hold these secrets.
fn session_of(
    alloc: Global,
    shape: Shape,
    numbers: Numbers,
    secrets: &[Secrets],
) -> Result<Session, AllocError>
    requires numbers { AreNumbers shape numbers }
    requires count { length secrets.now ≡ shape.peers + 1 }
    requires parties { AreOfParties (session_by shape numbers secrets.now) secrets.now }
    ensures value { IfOk result (λ s. s ≡ session_by shape numbers secrets.now) }
    ensures single { IfOk result (λ s. s.top ≡ None) }
    ensures setup { IfOk result (λ s. (stream : List ℕ) → IsSetup (setup_of s secrets.now stream)) }
{
    let keys = keys_of(alloc, numbers.params, shape.rounds, secrets)?;
    session(alloc, shape, numbers, &keys)
}

/// The world of a session of these numbers. The parties hold these secrets, and the stream is one byte repeated.
fn world_of(
    alloc: Global,
    shape: Shape,
    numbers: Numbers,
    secrets: &[Secrets],
    stream_len: usize,
) -> Result<World, AllocError>
    requires numbers { AreNumbers shape numbers }
    requires count { length secrets.now ≡ shape.peers + 1 }
    requires parties { AreOfParties (session_by shape numbers secrets.now) secrets.now }
    requires room { stream_len ≤ shape.rounds * shape.per_round * largest_content }
    ensures { IfOk result (λ world. IsReady world) }
{
    let session = session_of(alloc, shape, numbers, secrets)?;
    let stream = vec![in alloc; 165; stream_len]?;
    World::make(alloc, &session, secrets, stream)
}

/// The world of a session of two peers.
fn two_peers(alloc: Global) -> Result<World, AllocError>
    ensures { IfOk result (λ world. IsReady world) }
{
    let shape = Shape {
        version: 1,
        id: ID,
        peers: 2,
        rounds: 10,
        life: 4,
        per_round: 8,
        sig_len: 2508,
    };
    world_of(alloc, shape, NUMBERS, &THREE, STREAM_LEN)
}

/// The broadcaster and both peers tick.
fn tick_all(alloc: Global, world: &mut World) -> Result<(), AllocError>
    requires { IsReady world.old }
    ensures { OnOk result (IsReady world.new) }
{
    let moves = vec![in alloc; Move::TickOf(0), Move::TickOf(1), Move::TickOf(2)]?;
    run_world(world, &moves)
}

/// More datagrams than a tick and the answers to its datagrams send.
const MANY: u64 = 1000;

/// Delivers each datagram of the pool from a number on, and returns how many the pool has afterwards.
fn deliver_all(alloc: Global, world: &mut World, from: u64) -> Result<u64, AllocError>
    requires { IsReady world.old }
    ensures { OnOk result (IsReady world.new) }
{
    let mut next = from;
    for _ in 0..MANY {
        if world.pool(next).is_none() {
            return Ok(next);
        }
        let moves = vec![in alloc; Move::Deliver(next)]?;
        run_world(world, &moves)?;
        next = next.saturating_add(1);
    }
    Ok(next)
}

/// Runs `ticks` ticks of a broadcaster and two peers, with each sent datagram delivered. Returns how many were sent.
fn play(alloc: Global, world: &mut World, ticks: u32) -> Result<u64, AllocError>
    requires { IsReady world.old }
    ensures { OnOk result (IsReady world.new) }
{
    let mut sent = 0;
    for _ in 0..ticks {
        tick_all(alloc, world)?;
        sent = deliver_all(alloc, world, sent)?;
    }
    Ok(sent)
}

/// Makes moves that change nothing if the pool has `sent` datagrams: deliveries past the pool, ticks of no party, and bytes that aren't a
/// datagram.
fn move_in_vain(alloc: Global, world: &mut World, sent: u64) -> Result<(), AllocError>
    requires { IsReady world.old }
    ensures { OnOk result (IsReady world.new) }
{
    let bytes = vec![in alloc; 1, 2, 3]?;
    let moves = vec![in alloc;
        Move::Deliver(sent),
        Move::Deliver(u64::MAX),
        Move::TickOf(3),
        Move::TickOf(u16::MAX),
        Move::Hostile { to: 1, bytes },
    ]?;
    run_world(world, &moves)
}

/// How many bytes a party played.
fn played_len(rt: &impl Abort, world: &World, party: u16) -> usize {
    let count = world.party_count();
    assert!(rt; usize::from(party) < count);
    world.played(party).len()
}

#[test]
fn nobody_is_evicted_where_all_is_delivered(rt: HostRuntime) -> Result<(), Fail> {
    let alloc = rt.alloc();
    let mut world = two_peers(alloc)?;
    let sent = play(alloc, &mut world, 120)?;
    move_in_vain(alloc, &mut world, sent)?;
    assert!(rt; world.pool(sent).is_none());
    assert!(rt; world.evicted().is_empty());
    for party in 1..=2 {
        assert_eq!(rt; played_len(&rt, &world, party), STREAM_LEN);
    }
    Ok(())
}
