//! What a CASE or a KEY of a recording adds.
ghost use Rattle.std.specs.Prelude.{◌≡◌, ◌+◌, ◌≤◌, Some, IfSome, OnOk, option_map};
ghost use Rattle.std.specs.Bool.{then_some};
ghost use Rattle.bar_terms.specs.Code.Windows.{AreWindowsOf};
ghost use Rattle.bar_wire.specs.Datagram.{kind_of, place_of};
ghost use Rattle.bar_wire.specs.Code.Views.{datagram, plain};
ghost use Rattle.bar_wire.specs.declared.kind.Kind.TheVariants as kinds;
ghost use Rattle.bar_rules.specs.Verifiers.{IsVerifierOf};
ghost use Rattle.bar_judge.specs.Code.Parts.{IsRead, plain_briefcase};
ghost use Rattle.bar_audit.specs.Code.Findings.{AreKeptWindows, KeepsExchanges, plain_case};
ghost use Rattle.bar_audit.specs.Code.Found.{can_be_opened, promised_by};
ghost use Rattle.bar_audit.specs.Code.Shown.{AddsCase, AddsKey, place_at};

use crate::findings::{Findings, NoMemory};
use crate::kept::KeptCase;
use crate::side::Side;
use bar_bytes::Steps;
use bar_judge::{Briefcase, briefcase_of, is_accepted};
use bar_roster::Session;
use bar_seal::Verifier;
use bar_terms::laws::valid_terms_can_promise;
use bar_terms::{junk_count, promise, terms_fit, update_count};
use bar_window::Exchange;
use bar_wire::View;
use std::sync::ledger::Ledger;

/// What is kept of a briefcase, if its terms are valid whatever the manifests are, and its counts are those of its sender's promise.
fn kept_of(session: &Session, x: Exchange, case: &Briefcase<'_>) -> Option<KeptCase>
    requires windows { AreWindowsOf session.now.shape.life case.now.round case.now.terms }
    requires round { x.round ≡ case.now.round }
    ensures value { option_map plain_case result ≡ then_some (can_be_opened session.now x (plain_briefcase case.now))
        (promised_by session.now (plain_briefcase case.now)) }
    ensures terms { IfSome result (λ k. k.terms ≡ case.now.terms) }
{
    valid_terms_can_promise();
    let cap = session.cap();
    if !terms_fit(&case.terms, x, cap, session.shape().life)
        || case.updates != update_count(&case.terms, case.role, cap)
        || case.junk != junk_count(&case.terms, case.role)
    {
        return None;
    }
    Some(KeptCase {
        items: promise(&case.terms, case.role, cap).len,
        terms: case.terms,
    })
}

/// Records that a KEY was received, if its signature is accepted and no KEY of its side is recorded yet.
pub(crate) fn take_key<V: Verifier, L: Ledger>(
    found: &mut Findings,
    session: &Session,
    verifier: &V,
    side: Side,
    view: &View<'_>,
    steps: &mut Steps<L>,
) -> Result<(), NoMemory>
    requires verifier { IsVerifierOf session.now (V.is_accepted verifier.now) }
    requires read { IsRead session.now.shape view.now }
    requires kind { kind_of (plain view.now.body) ≡ kinds.Key }
    requires place { place_of (datagram session.now.shape view.now).message ≡ Some (place_at side) }
    ensures kept { OnOk result (AddsKey session.now (datagram session.now.shape view.now) found.old.keys.keys found.new.keys.keys) }
    ensures cases { found.new.cases ≡ found.old.cases }
    ensures exchanges { OnOk result (KeepsExchanges found.old → KeepsExchanges found.new) }
    ensures cost { steps.new ≤ steps.old + V.most_steps verifier.now }
{
    if found.has_key(side) || !is_accepted(session, verifier, view, steps) {
        return Ok(());
    }
    found.put_key(side)
}

/// Keeps what a CASE promises, if it can be opened, its signature is accepted and nothing is kept of its side's CASE yet.
pub(crate) fn take_case<V: Verifier, L: Ledger>(
    found: &mut Findings,
    session: &Session,
    verifier: &V,
    side: Side,
    view: &View<'_>,
    steps: &mut Steps<L>,
) -> Result<(), NoMemory>
    requires verifier { IsVerifierOf session.now (V.is_accepted verifier.now) }
    requires read { IsRead session.now.shape view.now }
    requires kind { kind_of (plain view.now.body) ≡ kinds.Case }
    requires place { place_of (datagram session.now.shape view.now).message ≡ Some (place_at side) }
    ensures kept { OnOk result (AddsCase session.now (datagram session.now.shape view.now) found.old.cases.entries
        found.new.cases.entries) }
    ensures keys { found.new.keys ≡ found.old.keys }
    ensures windows { OnOk result (AreKeptWindows session.now found.old.cases.entries →
        AreKeptWindows session.now found.new.cases.entries) }
    ensures exchanges { OnOk result (KeepsExchanges found.old → KeepsExchanges found.new) }
    ensures cost { steps.new ≤ steps.old + V.most_steps verifier.now }
{
    if found.case(side).is_some() {
        return Ok(());
    }
    let Some(case) = briefcase_of(view) else {
        return Ok(());
    };
    let Some(kept) = kept_of(session, side.x, &case) else {
        return Ok(());
    };
    if !is_accepted(session, verifier, view, steps) {
        return Ok(());
    }
    found.put_case(side, kept)
}
