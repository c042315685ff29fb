//! The verdict on a proof file.
ghost use Rattle.std.specs.Prelude.{◌≡◌, ◌⊎◌, ◌+◌, ◌*◌, ◌≤◌, Ok, Err, IfOk, IfErr};
ghost use Rattle.bar_judge.specs.Code.Verdicts.{plain_verdict};
ghost use Rattle.bar_rules.specs.Verifiers.{IsVerifierOf, NamesLeavesOf};
ghost use Rattle.bar_proof.specs.Laws.{IsProofSpelled};
ghost use Rattle.bar_proof.specs.ProofFile.{proof_of, proof_verdict};

use crate::ProofFault;
use crate::evidence::read_evidence;
use crate::laws::proofs_are_spelled;
use crate::reading::{has_head, read_manifests};
use bar_bytes::Steps;
use bar_judge::{Verdict, verdict};
use bar_roster::Session;
use bar_seal::Verifier;
use std::alloc::Global;
use std::sync::ledger::Ledger;

/// The bytes of a proof file are those of its manifests and of its evidence, and no others.
fn proof_is_spelled(session: &Session, bytes: &[u8])
    ensures { IsProofSpelled session.now bytes.now }
{
    proofs_are_spelled();
    let _bytes = bytes;
}

/// The verdict on the evidence of a proof file under the table of its manifests, or the file's first fault from the left. It checks each
/// signature once, and counts each hash of the signatures and of the seeds.
pub fn judge_proof<V: Verifier, L: Ledger>(
    alloc: Global,
    session: &Session,
    verifier: &V,
    bytes: &[u8],
    steps: &mut Steps<L>,
) -> Result<Verdict, ProofFault>
    requires verifier { IsVerifierOf session.now (V.is_accepted verifier.now) }
    requires leaves { NamesLeavesOf session.now (V.leaf_named verifier.now) (V.signature_len verifier.now) }
    ensures ok { IfOk result (λ v. proof_verdict session.now bytes.now ≡ Ok (plain_verdict v)) }
    ensures err { IfErr result (λ f. (f ≡ ProofFault.NoMemory) ⊎ (proof_of session.now bytes.now ≡ Err f)) }
    ensures spelled { IsProofSpelled session.now bytes.now }
    ensures cost { steps.new ≤ steps.old
        + (session.now.shape.rounds * V.most_steps verifier.now + (2 * V.most_steps verifier.now + session.now.shape.rounds)) }
{
    proof_is_spelled(session, bytes);
    if !has_head(bytes) {
        return Err(ProofFault::BadHead);
    }
    let (table, rest) = read_manifests(alloc, session, verifier, bytes, steps)?;
    let Some(evidence) = read_evidence(rest) else {
        return Err(ProofFault::BadEvidence);
    };
    Ok(verdict(session, verifier, &table, &evidence, steps))
}
