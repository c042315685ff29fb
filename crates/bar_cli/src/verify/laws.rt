//! What each exit status of `verify` means, and what then holds.
ghost use Rattle.std.specs.Prelude.{IsTrue, ◌≡◌, ◌⊎◌, ℕ, [], None, IsSomeAnd, true};
ghost use Rattle.bar_outside.specs.Code.Causes.{Rose};
ghost use Rattle.bar_outside.specs.Disk.{Content, readable};
ghost use Rattle.bar_outside.specs.Code.Follows.{IsReliable};
ghost use Rattle.bar_outside.specs.Plan.{Outside, is_stop, line_at};
ghost use Rattle.bar_outside.specs.Ends.{Ends, OfEachEnd, AtEnd, UnlessStopped, SameFiles, NothingPrinted};
ghost use Rattle.bar_roster.specs.declared.fault.SessionFault.{SessionFault};
ghost use Rattle.bar_session.specs.SessionData.{SessionData};
ghost use Rattle.bar_rules.specs.Judge.Verdict.{Fault, Verdict, Why, Shown, NotShown};
ghost use Rattle.bar_proof.specs.declared.proof_fault.ProofFault.{ProofFault};
ghost use Rattle.bar_session_files.specs.Accepting.{HasBadSession, HasSession};
ghost use Rattle.bar_cli.specs.Judge.Judging.{status_of_verdict};
ghost use Rattle.bar_cli.specs.Refusals.{session_refused, proof_refused};
ghost use Rattle.bar_cli.specs.Verify.{VerifyFiles, VerifyAccepted, HasBadProof, Verified, VerifiedFront, IsVerifyCall, verify_plan};

use bar_outside::stages_go_in_order;
use bar_proof::laws::proofs_are_spelled;

/// If both files are accepted, the status is 0 or 1, unless a fault of the outside or running out of memory stops the command. It is 0 if
/// the rules show a fault under the proof file's own table, and 1 if they show none. 0 and 1 are returned only if both files are accepted.
/// Then the line of the verdict was printed, and nothing was printed on standard error.
pub fn the_proof_is_judged()
    ensures shown { (names : VerifyFiles) → AtEnd 0 (verify_plan names) (λ old new.
        (party : ℕ) × (fault : Fault) × Verified names (Shown party fault) old new) }
    ensures not_shown { (names : VerifyFiles) → AtEnd 1 (verify_plan names) (λ old new. (why : Why) × Verified names (NotShown why) old new) }
    ensures then { (names : VerifyFiles) (verdict : Verdict) → OfEachEnd (verify_plan names) (λ old new status.
        VerifyAccepted names old.files.content verdict → UnlessStopped (status_of_verdict verdict) status) }
    ensures line { (names : VerifyFiles) (verdict : Verdict) (content : Content) → VerifyAccepted names content verdict →
        line_at (verify_plan names content) (status_of_verdict verdict) ≡ [] }
{
    stages_go_in_order();
    proofs_are_spelled();
}

/// If both files are accepted and no fault count rose, the status is that of the verdict, unless memory runs out. The same holds if the
/// outside is reliable.
pub fn the_proof_is_judged_where_all_is_accepted()
    ensures without_faults { (names : VerifyFiles) (verdict : Verdict) → OfEachEnd (verify_plan names) (λ old new status.
        VerifyAccepted names old.files.content verdict →
        (Rose old.files.faults new.files.faults → ⊥) → (Rose old.out.faults new.out.faults → ⊥) →
        (status ≡ status_of_verdict verdict) ⊎ (status ≡ 70)) }
    ensures reliable { (names : VerifyFiles) (verdict : Verdict) (old new : Outside) (status : ℕ) → Ends (verify_plan names) old new status →
        IsReliable old → IsTrue new.files.told → VerifyAccepted names old.files.content verdict → (status ≡ status_of_verdict verdict) ⊎ (status ≡ 70) }
{}

/// 3 is returned only if the fault count of the files rose; if the reads agree with the content, a read of one of the two files failed. 7
/// is returned only if the fault count of the output rose; if the reads agree, both were accepted before. A file that doesn't exist or is
/// too large stops the command.
pub fn verifying_fails_only()
    ensures file { (names : VerifyFiles) (old new : Outside) → Ends (verify_plan names) old new 3 → Rose old.files.faults new.files.faults }
    ensures named { (names : VerifyFiles) → AtEnd 3 (verify_plan names) (λ old new. IsSomeAnd new.files.failed (IsVerifyCall names)) }
    ensures output { (names : VerifyFiles) (old new : Outside) → Ends (verify_plan names) old new 7 → Rose old.out.faults new.out.faults }
    ensures in_order { (names : VerifyFiles) → AtEnd 7 (verify_plan names) (VerifiedFront names) }
    ensures no_session { (names : VerifyFiles) → OfEachEnd (verify_plan names) (λ old new status.
        readable old.files.content names.session ≡ None → is_stop status ≡ true) }
    ensures no_proof { (names : VerifyFiles) (session : SessionData) → OfEachEnd (verify_plan names) (λ old new status.
        HasSession names.session old.files.content session → readable old.files.content names.proof ≡ None → is_stop status ≡ true) }
{
    stages_go_in_order();
}

/// 4 is returned if and only if the session exists and is refused, unless a fault or running out of memory stops the command. Its line
/// contains the first fault.
pub fn a_bad_session_is_not_verified()
    ensures only { (names : VerifyFiles) → AtEnd 4 (verify_plan names) (λ old new.
        (fault : SessionFault) × HasBadSession names.session old.files.content fault) }
    ensures then { (names : VerifyFiles) (fault : SessionFault) → OfEachEnd (verify_plan names) (λ old new status.
        HasBadSession names.session old.files.content fault → UnlessStopped 4 status) }
    ensures line { (names : VerifyFiles) (content : Content) (fault : SessionFault) → HasBadSession names.session content fault →
        line_at (verify_plan names content) 4 ≡ session_refused fault }
{
    stages_go_in_order();
}

/// 8 is returned if and only if the session is accepted and the proof file exists and is refused, unless a fault or running out of memory
/// stops the command. Its line contains the first fault from the left, and the place of a manifest.
pub fn a_bad_proof_is_refused()
    ensures only { (names : VerifyFiles) → AtEnd 8 (verify_plan names) (λ old new.
        (fault : ProofFault) × HasBadProof names old.files.content fault) }
    ensures then { (names : VerifyFiles) (fault : ProofFault) → OfEachEnd (verify_plan names) (λ old new status.
        HasBadProof names old.files.content fault → UnlessStopped 8 status) }
    ensures line { (names : VerifyFiles) (content : Content) (fault : ProofFault) → HasBadProof names content fault →
        line_at (verify_plan names content) 8 ≡ proof_refused fault }
{
    stages_go_in_order();
}

/// At every status, no file is changed. After a refusal nothing was printed.
pub fn verifying_changes_nothing()
    ensures files { (names : VerifyFiles) → OfEachEnd (verify_plan names) (λ old new status. SameFiles old new) }
    ensures session { (names : VerifyFiles) → AtEnd 4 (verify_plan names) NothingPrinted }
    ensures proof { (names : VerifyFiles) → AtEnd 8 (verify_plan names) NothingPrinted }
{
    stages_go_in_order();
}

/// At every status, nothing was printed, or everything was accepted and a prefix of the verdict's line was printed.
pub fn a_front_of_the_proofs_verdict_is_printed()
    ensures { (names : VerifyFiles) → OfEachEnd (verify_plan names) (λ old new status.
        NothingPrinted old new ⊎ VerifiedFront names old new) }
{
    stages_go_in_order();
}
