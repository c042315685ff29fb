//! What a datagram in a party's recording adds, given its bytes.
ghost use Rattle.std.specs.Prelude.{◌+◌, ◌≤◌, false, Some, OnOk, if◌then◌else◌};
ghost use Rattle.std.specs.Option.{option_map_or};
ghost use Rattle.bar_wire.specs.Places.{datagram_of};
ghost use Rattle.bar_wire.specs.Code.Views.{datagram};
ghost use Rattle.bar_rules.specs.Verifiers.{IsVerifierOf};
ghost use Rattle.bar_judge.specs.Code.Parts.{IsRead};
ghost use Rattle.bar_audit.specs.Code.Findings.{AreKeptWindows, KeepsExchanges};
ghost use Rattle.bar_audit.specs.Code.Given.{GivesCase, GivesKey, is_told};

use crate::findings::{Findings, NoMemory};
use crate::side::Side;
use crate::taking::{take_case, take_key};
use bar_bytes::Steps;
use bar_judge::read_view;
use bar_roster::Session;
use bar_seal::Verifier;
use bar_wire::{Body, View, place_of};
use std::sync::ledger::Ledger;

/// Keeps what a datagram shows of the side that sent it to this party.
fn give_view<V: Verifier, L: Ledger>(
    found: &mut Findings,
    session: &Session,
    verifier: &V,
    party: u16,
    view: &View<'_>,
    steps: &mut Steps<L>,
) -> Result<(), NoMemory>
    requires verifier { IsVerifierOf session.now (V.is_accepted verifier.now) }
    requires read { IsRead session.now.shape view.now }
    ensures cases { OnOk result (GivesCase session.now party (Some (datagram session.now.shape view.now)) found.old.cases.entries
        found.new.cases.entries) }
    ensures keys { OnOk result (GivesKey session.now party (Some (datagram session.now.shape view.now)) found.old.keys.keys
        found.new.keys.keys) }
    ensures windows { OnOk result (AreKeptWindows session.now found.old.cases.entries →
        AreKeptWindows session.now found.new.cases.entries) }
    ensures exchanges { OnOk result (KeepsExchanges found.old → KeepsExchanges found.new) }
    ensures cost { steps.new ≤ steps.old
        + (if is_told party (datagram session.now.shape view.now) then V.most_steps verifier.now else 0) }
{
    if view.to != party {
        return Ok(());
    }
    let Some(place) = place_of(view) else {
        return Ok(());
    };
    let side = Side {
        x: place.x,
        role: place.role,
    };
    match view.body {
        Body::Case { .. } => take_case(found, session, verifier, side, view, steps),
        Body::Key { .. } => take_key(found, session, verifier, side, view, steps),
        _ => Ok(()),
    }
}

/// Keeps what the bytes of a datagram in the recording of a party show of the side that sent it, if they encode a datagram for this party.
/// A CASE or a KEY has at most one verification, whose hashes are counted.
pub(crate) fn give<V: Verifier, L: Ledger>(
    found: &mut Findings,
    session: &Session,
    verifier: &V,
    party: u16,
    bytes: &[u8],
    steps: &mut Steps<L>,
) -> Result<(), NoMemory>
    requires verifier { IsVerifierOf session.now (V.is_accepted verifier.now) }
    ensures cases { OnOk result (GivesCase session.now party (datagram_of session.now.shape bytes.now) found.old.cases.entries
        found.new.cases.entries) }
    ensures keys { OnOk result (GivesKey session.now party (datagram_of session.now.shape bytes.now) found.old.keys.keys
        found.new.keys.keys) }
    ensures windows { OnOk result (AreKeptWindows session.now found.old.cases.entries →
        AreKeptWindows session.now found.new.cases.entries) }
    ensures exchanges { OnOk result (KeepsExchanges found.old → KeepsExchanges found.new) }
    ensures cost { steps.new ≤ steps.old
        + (if option_map_or (is_told party) (datagram_of session.now.shape bytes.now) false then V.most_steps verifier.now else 0) }
{
    match read_view(bytes, &session.shape()) {
        Some(view) => give_view(found, session, verifier, party, &view, steps),
        None => Ok(()),
    }
}
