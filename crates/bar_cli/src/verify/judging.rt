//! Judging a proof file. Steps are counted, but the count isn't used.
ghost use Rattle.std.specs.Prelude.{◌≡◌, ◌⊎◌, ◌<◌, Ok, Err, IfOk, IfErr};
ghost use Rattle.bar_judge.specs.Code.Verdicts.{plain_verdict};
ghost use Rattle.bar_cli.specs.Judge.Judging.{verdict_of_proof};

use crate::verifier::verifier_of;
use bar_bytes::Steps;
use bar_judge::Verdict;
use bar_proof::{ProofFault, judge_proof};
use bar_roster::Session;
use std::alloc::Global;
use std::marker::Brand;
use std::sync::ledger::{Blank, Ledger};

#[tactic(auto, unfolding(crate::specs::Judge::Judging::verdict_of_proof))]
fn judge_counted<L: Ledger>(
    alloc: Global,
    session: &Session,
    bytes: &[u8],
    blank: Blank,
) -> Result<Verdict, ProofFault>
    requires name { blank.name ≡ L.name }
    requires parts { blank.parts ≡ L.parts }
    requires some { 0 < L.parts }
    ensures ok { IfOk result (λ verdict. verdict_of_proof session.now bytes.now ≡ Ok (plain_verdict verdict)) }
    ensures err { IfErr result (λ fault. (fault ≡ ProofFault.NoMemory) ⊎ (verdict_of_proof session.now bytes.now ≡ Err fault)) }
{
    let verifier = verifier_of(session);
    judge_proof(
        alloc,
        session,
        &verifier,
        bytes,
        &mut Steps::<L>::new(blank),
    )
}

/// The verdict on a proof file under the table of its own manifests.
pub fn judge_file(alloc: Global, session: &Session, bytes: &[u8]) -> Result<Verdict, ProofFault>
    ensures ok { IfOk result (λ verdict. verdict_of_proof session.now bytes.now ≡ Ok (plain_verdict verdict)) }
    ensures err { IfErr result (λ fault. (fault ≡ ProofFault.NoMemory) ⊎ (verdict_of_proof session.now bytes.now ≡ Err fault)) }
{
    judge_counted::<Brand>(alloc, session, bytes, Blank::new(1))
}
