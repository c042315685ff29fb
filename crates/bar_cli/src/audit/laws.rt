//! What each exit status of `audit` means, and what then holds.
ghost use Rattle.std.specs.Prelude.{IsTrue, ◌≡◌, ◌⊎◌, ℕ, [], None, Some, IsSomeAnd, true};
ghost use Rattle.bar_outside.specs.Code.Causes.{Rose};
ghost use Rattle.bar_outside.specs.Disk.{Content, readable};
ghost use Rattle.bar_outside.specs.Code.Follows.{IsReliable};
ghost use Rattle.bar_outside.specs.Plan.{Outside, is_stop, line_at};
ghost use Rattle.bar_outside.specs.Ends.{Ends, OfEachEnd, AtEnd, UnlessStopped, NothingPrinted};
ghost use Rattle.bar_window.specs.declared.exchange.Exchange.{Exchange};
ghost use Rattle.bar_record.specs.declared.fault.RecordFault.{RecordFault};
ghost use Rattle.bar_roster.specs.declared.fault.SessionFault.{SessionFault};
ghost use Rattle.bar_session.specs.SessionData.{SessionData};
ghost use Rattle.bar_session_files.specs.Accepting.{HasBadSession};
ghost use Rattle.bar_cli.specs.Audit.Text.{status_of_balance};
ghost use Rattle.bar_cli.specs.Audit.Plan.{AuditAccepted, AuditFiles, HasBadParties, HasBadRecording, IsAuditCall, IsNextParty, audit_plan, recording_name};
ghost use Rattle.bar_cli.specs.Audit.Audited.{Audited, AuditedFront, AuditStays, balance_in};
ghost use Rattle.bar_cli.specs.Refusals.{parties_refused, recording_refused, session_refused};

use bar_audit::laws::{keys_are_paid, recorded_exchanges_are_one_list, runs_are_balanced};
use bar_outside::stages_go_in_order;

/// If all files are accepted, the status is 0 if all recorded exchanges are balanced and 1 if one isn't, unless a fault of the outside or
/// running out of memory stops the audit. 0 and 1 are returned only in these cases. Then the lines were printed, and nothing was printed on
/// standard error.
pub fn an_audit_is_told()
    ensures balanced { (names : AuditFiles) → AtEnd 0 (audit_plan names) (Audited names None) }
    ensures unbalanced { (names : AuditFiles) → AtEnd 1 (audit_plan names) (λ old new. (x : Exchange) × Audited names (Some x) old new) }
    ensures then { (names : AuditFiles) → OfEachEnd (audit_plan names) (λ old new status.
        (accepted : AuditAccepted names old.files.content) →
        UnlessStopped (status_of_balance (balance_in names old.files.content accepted)) status) }
    ensures line { (names : AuditFiles) (content : Content) (accepted : AuditAccepted names content) →
        line_at (audit_plan names content) (status_of_balance (balance_in names content accepted)) ≡ [] }
{
    keys_are_paid();
    recorded_exchanges_are_one_list();
    stages_go_in_order();
}

/// If all files are accepted and no fault count rose, the status is that of the balance, unless memory runs out. The same holds if the
/// outside is reliable.
pub fn an_audit_is_told_where_all_is_accepted()
    ensures without_faults { (names : AuditFiles) → OfEachEnd (audit_plan names) (λ old new status.
        (accepted : AuditAccepted names old.files.content) →
        (Rose old.files.faults new.files.faults → ⊥) → (Rose old.out.faults new.out.faults → ⊥) →
        (status ≡ status_of_balance (balance_in names old.files.content accepted)) ⊎ (status ≡ 70)) }
    ensures reliable { (names : AuditFiles) (old new : Outside) (status : ℕ) → Ends (audit_plan names) old new status → IsReliable old → IsTrue new.files.told →
        (accepted : AuditAccepted names old.files.content) →
        (status ≡ status_of_balance (balance_in names old.files.content accepted)) ⊎ (status ≡ 70) }
{
    stages_go_in_order();
}

/// 3 is returned only if the fault count of the files rose; if the reads agree with the content, a read of the session or of a recording
/// failed. 7 is returned only if the fault count of the output rose; if the reads agree, everything was accepted before. A file that
/// doesn't exist or is too large stops the audit.
pub fn an_audit_fails_only()
    ensures file { (names : AuditFiles) (old new : Outside) → Ends (audit_plan names) old new 3 → Rose old.files.faults new.files.faults }
    ensures named { (names : AuditFiles) → AtEnd 3 (audit_plan names) (λ old new. IsSomeAnd new.files.failed (IsAuditCall names)) }
    ensures output { (names : AuditFiles) (old new : Outside) → Ends (audit_plan names) old new 7 → Rose old.out.faults new.out.faults }
    ensures in_order { (names : AuditFiles) → AtEnd 7 (audit_plan names) (AuditedFront names) }
    ensures no_session { (names : AuditFiles) → OfEachEnd (audit_plan names) (λ old new status.
        readable old.files.content names.session ≡ None → is_stop status ≡ true) }
    ensures no_recording { (names : AuditFiles) (session : SessionData) (party : ℕ) → OfEachEnd (audit_plan names) (λ old new status.
        IsNextParty names old.files.content session party →
        readable old.files.content (recording_name names.results party) ≡ None → is_stop status ≡ true) }
{
    stages_go_in_order();
}

/// 4 is returned if and only if the session exists and is refused, unless a fault or running out of memory stops the audit. Its line
/// contains the first fault.
pub fn an_audit_refuses_a_bad_session()
    ensures only { (names : AuditFiles) → AtEnd 4 (audit_plan names) (λ old new.
        (fault : SessionFault) × HasBadSession names.session old.files.content fault) }
    ensures then { (names : AuditFiles) (fault : SessionFault) → OfEachEnd (audit_plan names) (λ old new status.
        HasBadSession names.session old.files.content fault → UnlessStopped 4 status) }
    ensures line { (names : AuditFiles) (content : Content) (fault : SessionFault) → HasBadSession names.session content fault →
        line_at (audit_plan names content) 4 ≡ session_refused fault }
{
    stages_go_in_order();
}

/// Unless a fault or running out of memory stops the audit, 8 is returned in exactly two cases. The session is accepted, but the parties
/// aren't peers of it or the first exceeds the last; or a recording exists and is refused, and those of the parties before it are accepted.
/// The line names the parties, or contains the recording's first fault.
pub fn an_audit_refuses_bad_parties_and_recordings()
    ensures only { (names : AuditFiles) → AtEnd 8 (audit_plan names) (λ old new.
        HasBadParties names old.files.content ⊎ ((fault : RecordFault) × HasBadRecording names old.files.content fault)) }
    ensures parties { (names : AuditFiles) → OfEachEnd (audit_plan names) (λ old new status.
        HasBadParties names old.files.content → UnlessStopped 8 status) }
    ensures recording { (names : AuditFiles) (fault : RecordFault) → OfEachEnd (audit_plan names) (λ old new status.
        HasBadRecording names old.files.content fault → UnlessStopped 8 status) }
    ensures parties_line { (names : AuditFiles) (content : Content) → HasBadParties names content →
        line_at (audit_plan names content) 8 ≡ parties_refused }
    ensures recording_line { (names : AuditFiles) (content : Content) (fault : RecordFault) → HasBadRecording names content fault →
        line_at (audit_plan names content) 8 ≡ recording_refused fault }
{
    stages_go_in_order();
}

/// At every status, no file is changed, and no exchange of obedient parties is reported as unbalanced. After a refusal nothing was printed.
pub fn an_audit_stays()
    ensures stays { (names : AuditFiles) → OfEachEnd (audit_plan names) (AuditStays names) }
    ensures session { (names : AuditFiles) → AtEnd 4 (audit_plan names) NothingPrinted }
    ensures input { (names : AuditFiles) → AtEnd 8 (audit_plan names) NothingPrinted }
{
    recorded_exchanges_are_one_list();
    runs_are_balanced();
    stages_go_in_order();
}

/// At every status, nothing was printed, or everything was accepted and a prefix of the report was printed.
pub fn a_front_of_an_audit_is_printed()
    ensures { (names : AuditFiles) → OfEachEnd (audit_plan names) (λ old new status. NothingPrinted old new ⊎ AuditedFront names old new) }
{
    stages_go_in_order();
}
