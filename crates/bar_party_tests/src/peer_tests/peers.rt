//! Peers for tests, and all that they send and play.

use crate::keys::key_of;
use crate::sends::{MANY, Sent, add_sends, begins};
use bar_core::Core;
use bar_hss::SessionScheme;
use bar_peer::Peer;
use bar_roster::Session;
use bar_wire::Input;
use std::alloc::{AllocError, Global};
use std::process::Abort;
use std::test::Fail;

/// What a peer played and sent.
#[derive(Drop)]
pub struct Given {
    pub played: Vec<u8>,
    pub sends: Vec<Sent>,
}

/// A peer of a session whose secret is 32 times one byte.
pub fn peer_of(
    alloc: Global,
    session: &str,
    party: u8,
    secret: u8,
) -> Result<Peer<SessionScheme>, Fail> {
    let session = Session::read(alloc, session.as_bytes())?;
    let key = key_of(alloc, &session, u16::from(party), secret, false)?;
    Ok(Peer::of_key(alloc, session, key)?)
}

fn step(rt: &impl Abort, peer: &mut Peer<SessionScheme>, input: Input<'_>) {
    let idle = peer.idle();
    assert!(rt; idle);
    peer.take(input);
}

fn add_played(peer: &mut Peer<SessionScheme>, played: &mut Vec<u8>) -> Result<(), AllocError> {
    for _ in 0..MANY {
        let Some(content) = peer.next_played() else {
            return Ok(());
        };
        played.extend_from_slice(content)?;
    }
    Ok(())
}

/// Takes an input `count` times, and collects all that is played and sent.
fn take(
    rt: &impl Abort,
    alloc: Global,
    peer: &mut Peer<SessionScheme>,
    input: Input<'_>,
    count: u8,
) -> Result<Given, AllocError> {
    let mut given = Given {
        played: Vec::new(alloc),
        sends: Vec::new(alloc),
    };
    for _ in 0..count {
        step(rt, peer, input);
        add_played(peer, &mut given.played)?;
        add_sends(alloc, peer, &mut given.sends)?;
    }
    Ok(given)
}

/// What a peer plays and sends in `count` ticks, if nothing is delivered.
pub fn ticks(
    rt: &impl Abort,
    alloc: Global,
    peer: &mut Peer<SessionScheme>,
    count: u8,
) -> Result<Given, AllocError> {
    take(rt, alloc, peer, Input::Tick, count)
}

/// What a peer sends in answer to a datagram. Checks that it plays nothing.
pub fn answers(
    rt: &impl Abort,
    alloc: Global,
    peer: &mut Peer<SessionScheme>,
    datagram: &[u8],
) -> Result<Vec<Sent>, AllocError> {
    let given = take(rt, alloc, peer, Input::Datagram(datagram), 1)?;
    assert!(rt; given.played.is_empty());
    Ok(given.sends)
}

/// Gives a peer a datagram, and checks that it sends nothing.
pub fn tell(
    rt: &impl Abort,
    alloc: Global,
    peer: &mut Peer<SessionScheme>,
    datagram: &[u8],
) -> Result<(), AllocError> {
    assert!(rt; answers(rt, alloc, peer, datagram)?.is_empty());
    Ok(())
}

/// Takes `count` ticks, and checks that these contents are played.
pub fn check_played(
    rt: &impl Abort,
    alloc: Global,
    peer: &mut Peer<SessionScheme>,
    count: u8,
    played: &[u8],
) -> Result<(), AllocError> {
    let given = ticks(rt, alloc, peer, count)?;
    assert_eq!(rt; given.played.as_slice(), played);
    Ok(())
}

/// Takes a tick, and returns the first datagram sent that begins with `front`.
pub fn sent_at_tick(
    rt: &impl Abort,
    alloc: Global,
    peer: &mut Peer<SessionScheme>,
    front: &[u8],
) -> Result<Vec<u8>, AllocError> {
    let sends = ticks(rt, alloc, peer, 1)?.sends;
    match sends.iter().find(|sent| begins(sent, front)) {
        Some(sent) => sent.bytes.to_vec(alloc),
        None => panic!(rt; "it was not sent"),
    }
}
