//! The list that an entry of a table file gives.
ghost use Rattle.std.specs.Prelude.{◌≡◌, ◌+◌, ◌%◌, ◌≤◌, IfSome, option_map, length};
ghost use Rattle.bar_wire.specs.Code.Views.{plain, AreWhole};
ghost use Rattle.bar_rules.specs.Verifiers.{IsVerifierOf};
ghost use Rattle.bar_judge.specs.TableFile.{list_after, list_in};
ghost use Rattle.bar_judge.specs.Code.TableViews.{plain_list, HasPlace};

use crate::pair::is_accepted;
use bar_bytes::Steps;
use bar_roster::Session;
use bar_seal::Verifier;
use bar_wire::{Body, decode};
use std::sync::ledger::Ledger;

/// The round and the digests of a MANIFEST.
fn list_in<'a>(body: &Body<'a>) -> Option<(u32, &'a [u8])>
    requires { AreWhole body.now }
    ensures value { option_map plain_list result ≡ list_in (plain body.now) }
    ensures whole { IfSome result (λ list. length list.1.now % 32 ≡ 0) }
{
    match *body {
        Body::Manifest { round, digests, .. } => Some((round, digests)),
        _ => None,
    }
}

/// The round and the digests of bytes that encode a MANIFEST with an accepted signature, if its round is after the last one. It counts each
/// hash.
pub fn list_after<'a, V: Verifier, L: Ledger>(
    session: &Session,
    verifier: &V,
    last: u32,
    bytes: &'a [u8],
    steps: &mut Steps<L>,
) -> Option<(u32, &'a [u8])>
    requires { IsVerifierOf session.now (V.is_accepted verifier.now) }
    ensures value { option_map plain_list result ≡ list_after session.now last bytes.now }
    ensures place { IfSome result (HasPlace session.now.shape last) }
    ensures cost { steps.new ≤ steps.old + V.most_steps verifier.now }
    ensures none { session.now.shape.rounds ≤ last → steps.new ≡ steps.old }
{
    let shape = session.shape();
    let Ok(view) = decode(bytes, &shape) else {
        return None;
    };
    let list = list_in(&view.body)?;
    if list.0 <= last {
        return None;
    }
    if !is_accepted(session, verifier, &view, steps) {
        return None;
    }
    Some(list)
}
