//! A session made from its parties' key files.
ghost use Rattle.std.specs.Prelude.{◌≡◌, ◌+◌, ℕ, List, length, map, None, IfOk};
ghost use Rattle.bar_rules.specs.World.World.{IsSetup};
ghost use Rattle.bar_world.specs.Keys.{AreMade, anchor_in, held_in, public_in};
ghost use Rattle.bar_world.specs.Made.{AreNumbers, session_by};
ghost use Rattle.bar_world.specs.Code.Setups.{AreOfParties, setup_of};

use crate::numbers::Numbers;
use bar_roster::{KeyFile, Session};
use bar_wire::Shape;
use std::alloc::{AllocError, Global};

/// The public keys of parties.
fn public_keys(alloc: Global, keys: &[KeyFile]) -> Result<Vec<[u8; 56]>, AllocError>
    ensures { IfOk result (λ public. public.items ≡ map public_in keys.now) }
{
    let mut public = Vec::new(alloc);
    for key in keys {
        public.push(key.signer.public())?;
    }
    Ok(public)
}

/// The anchors of parties.
fn anchors(alloc: Global, keys: &[KeyFile]) -> Result<Vec<[u8; 32]>, AllocError>
    ensures { IfOk result (λ anchors. anchors.items ≡ map anchor_in keys.now) }
{
    let mut anchors = Vec::new(alloc);
    for key in keys {
        anchors.push(key.chain.anchor())?;
    }
    Ok(anchors)
}

/// The session with these parameters, made from the key files of its parties, the broadcaster's first.
pub fn session(
    alloc: Global,
    shape: Shape,
    numbers: Numbers,
    keys: &[KeyFile],
) -> Result<Session, AllocError>
    requires numbers { AreNumbers shape numbers }
    requires count { length keys.now ≡ shape.peers + 1 }
    requires made { AreMade numbers.params shape.rounds keys.now }
    requires parties { AreOfParties (session_by shape numbers (held_in keys.now)) (held_in keys.now) }
    ensures value { IfOk result (λ s. s ≡ session_by shape numbers (held_in keys.now)) }
    ensures single { IfOk result (λ s. s.top ≡ None) }
    ensures setup { IfOk result (λ s. (stream : List ℕ) → IsSetup (setup_of s (held_in keys.now) stream)) }
{
    let public = public_keys(alloc, keys)?;
    let anchors = anchors(alloc, &keys[1..])?;
    Ok(Session::made(
        shape,
        numbers.cap,
        numbers.fanout,
        numbers.port,
        numbers.tick_ms,
        numbers.params,
        public,
        anchors,
    ))
}
