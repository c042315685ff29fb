//! What each exit status of `judge` means, and what then holds.
ghost use Rattle.std.specs.Prelude.{IsTrue, ◌≡◌, ◌⊎◌, ℕ, [], None, IsSomeAnd, true};
ghost use Rattle.bar_outside.specs.Code.Causes.{Rose};
ghost use Rattle.bar_outside.specs.Disk.{Content, readable};
ghost use Rattle.bar_outside.specs.Code.Follows.{IsReliable};
ghost use Rattle.bar_outside.specs.Plan.{Outside, is_stop, line_at};
ghost use Rattle.bar_outside.specs.Ends.{Ends, OfEachEnd, AtEnd, UnlessStopped, SameFiles, NothingPrinted};
ghost use Rattle.bar_terms.specs.Table.{Lists};
ghost use Rattle.bar_roster.specs.declared.fault.SessionFault.{SessionFault};
ghost use Rattle.bar_session.specs.SessionData.{SessionData};
ghost use Rattle.bar_rules.specs.Judge.Verdict.{Fault, Why, Shown, NotShown};
ghost use Rattle.bar_session_files.specs.Accepting.{HasBadSession, HasSession};
ghost use Rattle.bar_cli.specs.Judge.Judging.{status_of_verdict};
ghost use Rattle.bar_cli.specs.Refusals.{session_refused, table_refused, evidence_refused};
ghost use Rattle.bar_cli.specs.Judge.Plan.{JudgeFiles, HasTable, JudgeAccepted, HasBadTable, HasBadEvidence, Judged, JudgedFront, IsJudgeCall, judge_plan, verdict_in};

use bar_outside::stages_go_in_order;

/// If all files are accepted, the status is 0 if the rules show a fault and 1 if they show none, unless a fault of the outside or running
/// out of memory stops the command. 0 and 1 are returned only in these cases. Then the line of the verdict was printed, and nothing was
/// printed on standard error.
pub fn the_verdict_is_printed()
    ensures shown { (names : JudgeFiles) → AtEnd 0 (judge_plan names) (λ old new.
        (party : ℕ) × (fault : Fault) × Judged names (Shown party fault) old new) }
    ensures not_shown { (names : JudgeFiles) → AtEnd 1 (judge_plan names) (λ old new. (why : Why) × Judged names (NotShown why) old new) }
    ensures then { (names : JudgeFiles) → OfEachEnd (judge_plan names) (λ old new status.
        (accepted : JudgeAccepted names old.files.content) →
        UnlessStopped (status_of_verdict (verdict_in names old.files.content accepted)) status) }
    ensures line { (names : JudgeFiles) (content : Content) (accepted : JudgeAccepted names content) →
        line_at (judge_plan names content) (status_of_verdict (verdict_in names content accepted)) ≡ [] }
{
    stages_go_in_order();
}

/// If all files are accepted and no fault count rose, the status is that of the verdict, unless memory runs out. The same holds if the
/// outside is reliable.
pub fn the_verdict_is_printed_where_all_is_accepted()
    ensures without_faults { (names : JudgeFiles) → OfEachEnd (judge_plan names) (λ old new status.
        (accepted : JudgeAccepted names old.files.content) →
        (Rose old.files.faults new.files.faults → ⊥) → (Rose old.out.faults new.out.faults → ⊥) →
        (status ≡ status_of_verdict (verdict_in names old.files.content accepted)) ⊎ (status ≡ 70)) }
    ensures reliable { (names : JudgeFiles) (old new : Outside) (status : ℕ) → Ends (judge_plan names) old new status → IsReliable old → IsTrue new.files.told →
        (accepted : JudgeAccepted names old.files.content) →
        (status ≡ status_of_verdict (verdict_in names old.files.content accepted)) ⊎ (status ≡ 70) }
{}

/// 3 is returned only if the fault count of the files rose; if the reads agree with the content, a read of one of the three files failed. 7
/// is returned only if the fault count of the output rose; if the reads agree, everything was accepted before. A file that doesn't exist or
/// is too large stops the command.
pub fn a_judge_fails_only()
    ensures file { (names : JudgeFiles) (old new : Outside) → Ends (judge_plan names) old new 3 → Rose old.files.faults new.files.faults }
    ensures named { (names : JudgeFiles) → AtEnd 3 (judge_plan names) (λ old new. IsSomeAnd new.files.failed (IsJudgeCall names)) }
    ensures output { (names : JudgeFiles) (old new : Outside) → Ends (judge_plan names) old new 7 → Rose old.out.faults new.out.faults }
    ensures in_order { (names : JudgeFiles) → AtEnd 7 (judge_plan names) (JudgedFront names) }
    ensures no_session { (names : JudgeFiles) → OfEachEnd (judge_plan names) (λ old new status.
        readable old.files.content names.session ≡ None → is_stop status ≡ true) }
    ensures no_table { (names : JudgeFiles) (session : SessionData) → OfEachEnd (judge_plan names) (λ old new status.
        HasSession names.session old.files.content session → readable old.files.content names.table ≡ None → is_stop status ≡ true) }
    ensures no_evidence { (names : JudgeFiles) (session : SessionData) (lists : Lists) → OfEachEnd (judge_plan names) (λ old new status.
        HasTable names old.files.content session lists → readable old.files.content names.evidence ≡ None → is_stop status ≡ true) }
{
    stages_go_in_order();
}

/// 4 is returned if and only if the session exists and is refused, unless a fault or running out of memory stops the command. Its line
/// contains the first fault.
pub fn a_bad_session_is_refused()
    ensures only { (names : JudgeFiles) → AtEnd 4 (judge_plan names) (λ old new.
        (fault : SessionFault) × HasBadSession names.session old.files.content fault) }
    ensures then { (names : JudgeFiles) (fault : SessionFault) → OfEachEnd (judge_plan names) (λ old new status.
        HasBadSession names.session old.files.content fault → UnlessStopped 4 status) }
    ensures line { (names : JudgeFiles) (content : Content) (fault : SessionFault) → HasBadSession names.session content fault →
        line_at (judge_plan names content) 4 ≡ session_refused fault }
{
    stages_go_in_order();
}

/// Unless a fault or running out of memory stops the command, 8 is returned in exactly two cases. The session is accepted, and the table
/// exists and is refused; or both are accepted, and the evidence exists and is refused. The line contains the place of the table's bad
/// entry, or names the evidence.
pub fn a_bad_table_or_evidence_is_refused()
    ensures only { (names : JudgeFiles) → AtEnd 8 (judge_plan names) (λ old new.
        ((at : ℕ) × HasBadTable names old.files.content at) ⊎ HasBadEvidence names old.files.content) }
    ensures table { (names : JudgeFiles) (at : ℕ) → OfEachEnd (judge_plan names) (λ old new status.
        HasBadTable names old.files.content at → UnlessStopped 8 status) }
    ensures evidence { (names : JudgeFiles) → OfEachEnd (judge_plan names) (λ old new status.
        HasBadEvidence names old.files.content → UnlessStopped 8 status) }
    ensures table_line { (names : JudgeFiles) (content : Content) (at : ℕ) → HasBadTable names content at →
        line_at (judge_plan names content) 8 ≡ table_refused at }
    ensures evidence_line { (names : JudgeFiles) (content : Content) → HasBadEvidence names content →
        line_at (judge_plan names content) 8 ≡ evidence_refused }
{
    stages_go_in_order();
}

/// At every status, no file is changed. After a refusal nothing was printed.
pub fn a_judge_changes_nothing()
    ensures files { (names : JudgeFiles) → OfEachEnd (judge_plan names) (λ old new status. SameFiles old new) }
    ensures session { (names : JudgeFiles) → AtEnd 4 (judge_plan names) NothingPrinted }
    ensures input { (names : JudgeFiles) → AtEnd 8 (judge_plan names) NothingPrinted }
{
    stages_go_in_order();
}

/// At every status, nothing was printed, or everything was accepted and a prefix of the verdict's line was printed.
pub fn a_front_of_the_verdict_is_printed()
    ensures { (names : JudgeFiles) → OfEachEnd (judge_plan names) (λ old new status. NothingPrinted old new ⊎ JudgedFront names old new) }
{
    stages_go_in_order();
}
