//! What each exit status of `pack` means, and what then holds.
ghost use Rattle.std.specs.Prelude.{IsTrue, ◌≡◌, ◌≢◌, ◌⊎◌, ℕ, List, [], None, IsSomeAnd, true};
ghost use Rattle.bar_outside.specs.Code.Causes.{Rose};
ghost use Rattle.bar_outside.specs.Disk.{Content, readable};
ghost use Rattle.bar_outside.specs.Code.Follows.{IsReliable};
ghost use Rattle.bar_outside.specs.Plan.{Outside, is_stop, line_at};
ghost use Rattle.bar_outside.specs.Ends.{Ends, OfEachEnd, AtEnd, UnlessStopped, SameFiles, NothingPrinted};
ghost use Rattle.bar_roster.specs.declared.fault.SessionFault.{SessionFault};
ghost use Rattle.bar_session.specs.SessionData.{SessionData};
ghost use Rattle.bar_session_files.specs.Accepting.{HasBadSession, HasSession};
ghost use Rattle.bar_cli.specs.Judge.Judging.{status_of_verdict};
ghost use Rattle.bar_cli.specs.Refusals.{session_refused, table_refused, evidence_refused};
ghost use Rattle.bar_cli.specs.Pack.{PackFiles, PackAccepted, HasBadTable, HasBadEvidence, Packed, NotPacked, NotPackedFront, ProofWritten, PackFront, IsPackCall, pack_plan, verdict_in};

use bar_outside::stages_go_in_order;
use bar_proof::laws::{tables_are_spelled, what_is_shown_is_packed};
use bar_roster::laws::accepted_sessions_are_in_range;

/// If all files are accepted, the status is 0 if the rules show a fault and 1 if they show none, unless a fault of the outside or running
/// out of memory stops the command. 0 and 1 are returned only in these cases. At 0 the proof file contains exactly what is packed, and its
/// length was printed. At 1 the reason was printed, and no file is changed. Nothing was printed on standard error.
pub fn a_proof_is_packed()
    ensures shown { (names : PackFiles) → AtEnd 0 (pack_plan names) (Packed names) }
    ensures not_shown { (names : PackFiles) → AtEnd 1 (pack_plan names) (NotPacked names) }
    ensures then { (names : PackFiles) → OfEachEnd (pack_plan names) (λ old new status.
        (accepted : PackAccepted names old.files.content) →
        UnlessStopped (status_of_verdict (verdict_in names old.files.content accepted)) status) }
    ensures line { (names : PackFiles) (content : Content) (accepted : PackAccepted names content) →
        line_at (pack_plan names content) (status_of_verdict (verdict_in names content accepted)) ≡ [] }
{
    stages_go_in_order();
    tables_are_spelled();
    what_is_shown_is_packed();
    accepted_sessions_are_in_range();
}

/// If all files are accepted and no fault count rose, the status is that of the verdict, unless memory runs out. The same holds if the
/// outside is reliable.
pub fn a_proof_is_packed_where_all_is_accepted()
    ensures without_faults { (names : PackFiles) → OfEachEnd (pack_plan names) (λ old new status.
        (accepted : PackAccepted names old.files.content) →
        (Rose old.files.faults new.files.faults → ⊥) → (Rose old.out.faults new.out.faults → ⊥) →
        (status ≡ status_of_verdict (verdict_in names old.files.content accepted)) ⊎ (status ≡ 70)) }
    ensures reliable { (names : PackFiles) (old new : Outside) (status : ℕ) → Ends (pack_plan names) old new status → IsReliable old → IsTrue new.files.told →
        (accepted : PackAccepted names old.files.content) →
        (status ≡ status_of_verdict (verdict_in names old.files.content accepted)) ⊎ (status ≡ 70) }
{}

/// 3 is returned only if the fault count of the files rose; if the reads agree with the content, a call that `pack` makes failed. 7 is
/// returned only if the fault count of the output rose. A file that doesn't exist or is too large stops the command; for the evidence this
/// holds even if the table is refused.
pub fn packing_fails_only()
    ensures file { (names : PackFiles) (old new : Outside) → Ends (pack_plan names) old new 3 → Rose old.files.faults new.files.faults }
    ensures named { (names : PackFiles) → AtEnd 3 (pack_plan names) (λ old new. IsSomeAnd new.files.failed (IsPackCall names)) }
    ensures output { (names : PackFiles) (old new : Outside) → Ends (pack_plan names) old new 7 → Rose old.out.faults new.out.faults }
    ensures no_session { (names : PackFiles) → OfEachEnd (pack_plan names) (λ old new status.
        readable old.files.content names.session ≡ None → is_stop status ≡ true) }
    ensures no_table { (names : PackFiles) (session : SessionData) → OfEachEnd (pack_plan names) (λ old new status.
        HasSession names.session old.files.content session → readable old.files.content names.table ≡ None → is_stop status ≡ true) }
    ensures no_evidence { (names : PackFiles) (session : SessionData) → OfEachEnd (pack_plan names) (λ old new status.
        HasSession names.session old.files.content session → readable old.files.content names.evidence ≡ None → is_stop status ≡ true) }
{
    stages_go_in_order();
}

/// 7 is returned only if nothing was refused. If the reads agree with the content, one of two cases holds. The proof file contains
/// everything that is packed, and a prefix of its line was printed; or no fault is shown, no file is changed, and a prefix of the reason's
/// line was printed.
pub fn output_fails_behind_the_proof()
    ensures { (names : PackFiles) → AtEnd 7 (pack_plan names) (λ old new. ProofWritten names old new ⊎ NotPackedFront names old new) }
{
    stages_go_in_order();
}

/// 4 is returned if and only if the session exists and is refused, unless a fault or running out of memory stops the command. Its line
/// contains the first fault.
pub fn a_bad_session_is_not_packed()
    ensures only { (names : PackFiles) → AtEnd 4 (pack_plan names) (λ old new.
        (fault : SessionFault) × HasBadSession names.session old.files.content fault) }
    ensures then { (names : PackFiles) (fault : SessionFault) → OfEachEnd (pack_plan names) (λ old new status.
        HasBadSession names.session old.files.content fault → UnlessStopped 4 status) }
    ensures line { (names : PackFiles) (content : Content) (fault : SessionFault) → HasBadSession names.session content fault →
        line_at (pack_plan names content) 4 ≡ session_refused fault }
{
    stages_go_in_order();
}

/// Unless a fault or running out of memory stops the command, 8 is returned in exactly two cases, in which the session is accepted and the
/// table and the evidence exist. The table is refused; or the table is accepted, and the evidence is refused. The line contains the place
/// of the table's bad entry, or names the evidence.
pub fn a_bad_table_or_evidence_is_not_packed()
    ensures only { (names : PackFiles) → AtEnd 8 (pack_plan names) (λ old new.
        ((at : ℕ) × HasBadTable names old.files.content at) ⊎ HasBadEvidence names old.files.content) }
    ensures table { (names : PackFiles) (at : ℕ) → OfEachEnd (pack_plan names) (λ old new status.
        HasBadTable names old.files.content at → UnlessStopped 8 status) }
    ensures evidence { (names : PackFiles) → OfEachEnd (pack_plan names) (λ old new status.
        HasBadEvidence names old.files.content → UnlessStopped 8 status) }
    ensures table_line { (names : PackFiles) (content : Content) (at : ℕ) → HasBadTable names content at →
        line_at (pack_plan names content) 8 ≡ table_refused at }
    ensures evidence_line { (names : PackFiles) (content : Content) → HasBadEvidence names content →
        line_at (pack_plan names content) 8 ≡ evidence_refused }
{
    stages_go_in_order();
}

/// At every status, only the proof file is changed.
pub fn only_the_proof_is_changed()
    ensures { (names : PackFiles) (path : List ℕ) → OfEachEnd (pack_plan names) (λ old new status.
        path ≢ names.proof → new.files.content path ≡ old.files.content path) }
{
    stages_go_in_order();
}

/// After a refusal every file is unchanged, and nothing was printed.
pub fn refused_packing_changes_nothing()
    ensures session { (names : PackFiles) → AtEnd 4 (pack_plan names) SameFiles }
    ensures session_printed { (names : PackFiles) → AtEnd 4 (pack_plan names) NothingPrinted }
    ensures input { (names : PackFiles) → AtEnd 8 (pack_plan names) SameFiles }
    ensures input_printed { (names : PackFiles) → AtEnd 8 (pack_plan names) NothingPrinted }
{
    stages_go_in_order();
}

/// At every status one of these holds. All files are unchanged, and nothing was printed; or no fault is shown, all files are unchanged, and
/// a prefix of the reason's line was printed; or a fault is shown, and the proof file contains a prefix of what is packed. In the last case
/// a prefix of its line was printed once the file was complete.
pub fn a_front_of_the_proof_is_made()
    ensures { (names : PackFiles) → OfEachEnd (pack_plan names) (λ old new status. PackFront names old new) }
{
    stages_go_in_order();
}
