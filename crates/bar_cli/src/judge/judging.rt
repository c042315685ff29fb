//! The meaning of a table file and the verdict on evidence. Steps are counted, but the count isn't used.
ghost use Rattle.std.specs.Prelude.{◌≡◌, ◌⊎◌, ◌<◌, Err, IfOk, IfErr};
ghost use Rattle.bar_terms.specs.Table.{digests_of};
ghost use Rattle.bar_wire.specs.Evidence.{datagrams_of};
ghost use Rattle.bar_rules.specs.Judge.Verdict.{verdict};
ghost use Rattle.bar_judge.specs.TableFile.{HasLists, table_of};
ghost use Rattle.bar_judge.specs.Code.Verdicts.{plain_verdict};
ghost use Rattle.bar_cli.specs.Judge.Judging.{IsTableOf, lists_of, place_of};

use crate::verifier::verifier_of;
use bar_bytes::Steps;
use bar_judge::{TableFault, Verdict, read_table, verdict};
use bar_roster::Session;
use bar_terms::Table;
use bar_wire::EvidenceView;
use std::alloc::Global;
use std::marker::Brand;
use std::sync::ledger::{Blank, Ledger};

fn read_counted<L: Ledger>(
    alloc: Global,
    bytes: &[u8],
    session: &Session,
    blank: Blank,
) -> Result<Table, TableFault>
    requires name { blank.name ≡ L.name }
    requires parts { blank.parts ≡ L.parts }
    requires some { 0 < L.parts }
    ensures ok { IfOk result (λ table. HasLists (table_of session.now bytes.now) (digests_of table.lists)) }
    ensures err { IfErr result (λ fault. (fault ≡ TableFault.NoMemory) ⊎ (table_of session.now bytes.now ≡ Err fault)) }
{
    let verifier = verifier_of(session);
    read_table(
        alloc,
        bytes,
        session,
        &verifier,
        &mut Steps::<L>::new(blank),
    )
}

/// The table that a file encodes under a session.
#[tactic(auto, unfolding(crate::specs::Judge::Judging::lists_of))]
pub fn read_lists(alloc: Global, bytes: &[u8], session: &Session) -> Result<Table, TableFault>
    ensures ok { IfOk result (λ table. IsTableOf session.now bytes.now (digests_of table.lists)) }
    ensures err { IfErr result (λ fault. (fault ≡ TableFault.NoMemory) ⊎ (lists_of session.now bytes.now ≡ Err (place_of fault))) }
{
    read_counted::<Brand>(alloc, bytes, session, Blank::new(1))
}

fn judge_counted<L: Ledger>(
    session: &Session,
    table: &Table,
    evidence: &EvidenceView<'_>,
    blank: Blank,
) -> Verdict
    requires name { blank.name ≡ L.name }
    requires parts { blank.parts ≡ L.parts }
    requires some { 0 < L.parts }
    ensures { plain_verdict result ≡ verdict session.now (digests_of table.now.lists) (datagrams_of evidence.now) }
{
    let verifier = verifier_of(session);
    verdict(
        session,
        &verifier,
        table,
        evidence,
        &mut Steps::<L>::new(blank),
    )
}

/// The verdict of the rules on evidence.
pub fn judge_evidence(session: &Session, table: &Table, evidence: &EvidenceView<'_>) -> Verdict
    ensures { plain_verdict result ≡ verdict session.now (digests_of table.now.lists) (datagrams_of evidence.now) }
{
    judge_counted::<Brand>(session, table, evidence, Blank::new(1))
}
