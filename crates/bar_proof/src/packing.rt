//! Packing evidence with the manifest that it needs.
ghost use Rattle.std.specs.Prelude.{◌+◌, ◌*◌, ◌≤◌, IfOk, IfErr};
ghost use Rattle.bar_rules.specs.Verifiers.{IsVerifierOf, NamesLeavesOf};
ghost use Rattle.bar_proof.specs.Packing.{IsPacked, IsRefused, IsSpelled};

use crate::PackFault;
use crate::evidence::read_evidence;
use crate::finding::manifest_of;
use crate::laws::{proofs_are_read_back, tables_are_spelled, what_is_packed_is_shown};
use crate::needs::needs;
use crate::writing::proof_file;
use bar_bytes::Steps;
use bar_judge::{Verdict, read_table, verdict};
use bar_roster::Session;
use bar_seal::Verifier;
use std::alloc::Global;
use std::sync::ledger::Ledger;

/// The bytes of a table file are those of its manifests, and no others.
fn table_is_spelled(session: &Session, table: &[u8])
    ensures { IsSpelled session.now table.now }
{
    tables_are_spelled();
    let _table = table;
}

/// The proof file of evidence that is shown under the table of a table file, with the one manifest that the evidence needs, or with none.
/// It reads the table file once, and a second time for the manifest. It checks each signature once, and counts each hash of the signatures
/// and of the seeds.
pub fn pack<V: Verifier, L: Ledger>(
    alloc: Global,
    session: &Session,
    verifier: &V,
    table: &[u8],
    evidence: &[u8],
    steps: &mut Steps<L>,
) -> Result<Vec<u8>, PackFault>
    requires verifier { IsVerifierOf session.now (V.is_accepted verifier.now) }
    requires leaves { NamesLeavesOf session.now (V.leaf_named verifier.now) (V.signature_len verifier.now) }
    ensures ok { IfOk result (λ file. IsPacked session.now table.now evidence.now file.items) }
    ensures err { IfErr result (IsRefused session.now table.now evidence.now) }
    ensures spelled { IsSpelled session.now table.now }
    ensures cost { steps.new ≤ steps.old
        + (session.now.shape.rounds * V.most_steps verifier.now + (2 * V.most_steps verifier.now + session.now.shape.rounds)) }
{
    what_is_packed_is_shown();
    proofs_are_read_back();
    table_is_spelled(session, table);
    let lists = read_table(alloc, table, session, verifier, steps)?;
    let Some(view) = read_evidence(evidence) else {
        return Err(PackFault::Evidence);
    };
    if let Verdict::NotShown(why) = verdict(session, verifier, &lists, &view, steps) {
        return Err(PackFault::NotShown(why));
    }
    let manifest = match needs(alloc, session, verifier, &lists, &view, steps)? {
        Some(round) => manifest_of(session, table, round),
        None => None,
    };
    let file = proof_file(alloc, manifest, evidence)?;
    Ok(file)
}
