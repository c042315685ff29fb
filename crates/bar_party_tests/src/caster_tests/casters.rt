//! Broadcasters for tests, and all that they send.
ghost use Rattle.std.specs.Prelude.{true};
ghost use Rattle.bar_hss.specs.Files.{IsPartyKeyOf};

use crate::keys::key_of;
use crate::sends::{Sent, add_sends, begins};
use bar_caster::Caster;
use bar_core::Core;
use bar_hss::{PartyKey, SessionScheme};
use bar_roster::Session;
use bar_wire::Input;
use std::alloc::{AllocError, Global};
use std::process::Abort;
use std::test::Fail;

/// A broadcaster with this key and a stream of the given length.
fn start(
    alloc: Global,
    session: Session,
    key: PartyKey,
    len: usize,
) -> Result<Caster<SessionScheme>, Fail>
    requires { IsPartyKeyOf session true key }
{
    let stream = vec![in alloc; 7; len]?;
    Ok(Caster::of_key(alloc, session, key, stream)?)
}

/// The broadcaster of a session, whose secret is 32 times the byte 7, with a stream of the given length.
pub fn caster_of(alloc: Global, session: &str, len: usize) -> Result<Caster<SessionScheme>, Fail> {
    let session = Session::read(alloc, session.as_bytes())?;
    let key = key_of(alloc, &session, 0, 7, true)?;
    start(alloc, session, key, len)
}

fn step(rt: &impl Abort, caster: &mut Caster<SessionScheme>, input: Input<'_>) {
    let idle = caster.idle();
    assert!(rt; idle);
    caster.take(input);
}

/// Takes an input, and adds all datagrams that it causes.
fn take(
    rt: &impl Abort,
    alloc: Global,
    caster: &mut Caster<SessionScheme>,
    input: Input<'_>,
    sends: &mut Vec<Sent>,
) -> Result<(), AllocError> {
    step(rt, caster, input);
    add_sends(alloc, caster, sends)
}

/// The datagrams that `count` ticks send.
pub fn ticks(
    rt: &impl Abort,
    alloc: Global,
    caster: &mut Caster<SessionScheme>,
    count: u8,
) -> Result<Vec<Sent>, AllocError> {
    let mut sends = Vec::new(alloc);
    for _ in 0..count {
        take(rt, alloc, caster, Input::Tick, &mut sends)?;
    }
    Ok(sends)
}

/// Gives a broadcaster a datagram, and checks that it sends nothing.
pub fn tell(
    rt: &impl Abort,
    alloc: Global,
    caster: &mut Caster<SessionScheme>,
    datagram: &[u8],
) -> Result<(), AllocError> {
    let mut sends = Vec::new(alloc);
    take(rt, alloc, caster, Input::Datagram(datagram), &mut sends)?;
    assert!(rt; sends.is_empty());
    Ok(())
}

/// How many datagrams are sent to a peer, begin with `front` and have `len` bytes.
fn count_to(sends: &[Sent], front: &[u8], len: usize, to: u16) -> usize {
    sends
        .iter()
        .filter(|sent| sent.to == to && sent.bytes.len() == len && begins(sent, front))
        .count()
}

/// How many such datagrams are sent to peer 1, and to peer 2.
pub fn counts(sends: &[Sent], front: &[u8], len: usize) -> [usize; 2] {
    [
        count_to(sends, front, len, 1),
        count_to(sends, front, len, 2),
    ]
}
