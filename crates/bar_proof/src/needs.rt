//! Which list of a table evidence needs.
ghost use Rattle.std.specs.Prelude.{◌≡◌, ◌≤◌, None, IfOk, IsNone, is_some, true};
ghost use Rattle.bar_terms.specs.Table.{digests_of, no_lists};
ghost use Rattle.bar_wire.specs.Bodies.{choice_round};
ghost use Rattle.bar_wire.specs.Evidence.{datagrams_of};
ghost use Rattle.bar_wire.specs.Code.Views.{plain};
ghost use Rattle.bar_rules.specs.Judge.Verdict.{are_of_one_peer, fault_of, verdict};
ghost use Rattle.bar_rules.specs.Verifiers.{NamesLeavesOf};
ghost use Rattle.bar_judge.specs.Code.Parts.{AreRead, datagrams_in};
ghost use Rattle.bar_proof.specs.Needs.{is_shown, needs, round_for};

use crate::items::bad_round;
use crate::past::past_round;
use bar_bytes::Steps;
use bar_judge::{Pair, briefcase_of, found, read_all};
use bar_roster::Session;
use bar_seal::Verifier;
use bar_terms::Table;
use bar_wire::EvidenceView;
use std::alloc::{AllocError, Global};
use std::sync::ledger::Ledger;

/// Whether datagrams show a fault under the empty table. A single datagram must not choose a partner. It takes no step.
fn is_shown_alone<V: Verifier, L: Ledger>(
    alloc: Global,
    session: &Session,
    verifier: &V,
    pair: &Pair<'_>,
    steps: &mut Steps<L>,
) -> Result<bool, AllocError>
    requires leaves { NamesLeavesOf session.now (V.leaf_named verifier.now) (V.signature_len verifier.now) }
    requires read { AreRead session.now.shape pair.now }
    requires signed { are_of_one_peer (datagrams_in session.now.shape pair.now) ≡ true }
    requires no_choice { IsNone pair.now.two → choice_round (plain pair.now.one.body) ≡ 0 }
    ensures exact { IfOk result (λ b. b ≡ is_some (fault_of session.now no_lists (datagrams_in session.now.shape pair.now))) }
    ensures cost { steps.new ≤ steps.old }
{
    let empty = Table::make(alloc, 1, 1)?;
    let mut points = session.checkpoints(alloc)?;
    let fault = found(
        session,
        verifier,
        &empty,
        &pair.one,
        pair.two.as_ref(),
        &mut points,
        steps,
    );
    Ok(fault.is_some())
}

/// The round whose list datagrams need, if they show a fault under a table and none under the empty one.
fn round_for(session: &Session, table: &Table, pair: &Pair<'_>) -> Option<u32>
    requires read { AreRead session.now.shape pair.now }
    requires none { fault_of session.now no_lists (datagrams_in session.now.shape pair.now) ≡ None }
    requires shown { is_some (fault_of session.now (digests_of table.now.lists) (datagrams_in session.now.shape pair.now)) ≡ true }
    ensures { result ≡ round_for session.now (digests_of table.now.lists) (datagrams_in session.now.shape pair.now) }
{
    let Some(two) = &pair.two else {
        let case = briefcase_of(&pair.one)?;
        return past_round(&case.terms, table);
    };
    match bad_round(session, table, &pair.one, two) {
        Some(round) => Some(round),
        None => bad_round(session, table, two, &pair.one),
    }
}

/// The round whose list evidence needs that is shown under a table, or `None` if it is shown under the empty one. It takes no step.
pub(crate) fn needs<V: Verifier, L: Ledger>(
    alloc: Global,
    session: &Session,
    verifier: &V,
    table: &Table,
    evidence: &EvidenceView<'_>,
    steps: &mut Steps<L>,
) -> Result<Option<u32>, AllocError>
    requires leaves { NamesLeavesOf session.now (V.leaf_named verifier.now) (V.signature_len verifier.now) }
    requires shown { is_shown (verdict session.now (digests_of table.now.lists) (datagrams_of evidence.now)) ≡ true }
    ensures exact { IfOk result (λ round. round ≡ needs session.now (digests_of table.now.lists) (datagrams_of evidence.now)) }
    ensures cost { steps.new ≤ steps.old }
{
    let Some(pair) = read_all(evidence, &session.shape()) else {
        return Ok(None);
    };
    if pair.two.is_none() && briefcase_of(&pair.one).is_none() {
        return Ok(None);
    }
    if is_shown_alone(alloc, session, verifier, &pair, steps)? {
        return Ok(None);
    }
    Ok(round_for(session, table, &pair))
}
