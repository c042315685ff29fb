//! What each exit status of a replay means, and what then holds.
ghost use Rattle.std.specs.Prelude.{IsTrue, ◌≡◌, ◌≢◌, ◌⊎◌, ℕ, List, [], None, IsSomeAnd, true};
ghost use Rattle.bar_outside.specs.Code.Causes.{Rose};
ghost use Rattle.bar_outside.specs.Disk.{Content, readable};
ghost use Rattle.bar_outside.specs.Code.Follows.{IsReliable};
ghost use Rattle.bar_outside.specs.Plan.{Outside, is_stop, ending, line_at};
ghost use Rattle.bar_outside.specs.Ends.{Ends, OfEachEnd, AtEnd, UnlessStopped};
ghost use Rattle.bar_seeds.specs.declared.secrets.Secrets.{Secrets};
ghost use Rattle.bar_roster.specs.declared.fault.SessionFault.{SessionFault};
ghost use Rattle.bar_roster.specs.declared.key_fault.KeyFileFault.{KeyFileFault};
ghost use Rattle.bar_session.specs.SessionData.{SessionData};
ghost use Rattle.bar_record.specs.declared.fault.RecordFault.{RecordFault};
ghost use Rattle.bar_findings.specs.Findings.{IsFindingName};
ghost use Rattle.bar_session_files.specs.Accepting.{HasBadSession, HasSession};
ghost use Rattle.bar_cli.specs.Replay.Finished.{IsReplayed};
ghost use Rattle.bar_cli.specs.Headline.{ReplayHeadline};
ghost use Rattle.bar_cli.specs.Line.{usage};
ghost use Rattle.bar_cli.specs.Refusals.{session_refused, key_refused, recording_refused};
ghost use Rattle.bar_cli.specs.Replay.Plan.{ReplayFiles, KeyAccepted, KeyRefused, InputRefused, Accepted, Replayed, PlayedFront, PlayedUpTo, FoundUpTo, ChangesNothing, IsMade, IsReplayCall, replay_plan};

use crate::headline::peers_keep_the_rules;
use bar_outside::stages_go_in_order;
use bar_record::{paced_inputs_stay_paced, recordings_read_back};
use bar_roster::laws::{
    accepted_keys_are_read_back, accepted_secrets_are_held, accepted_sessions_are_in_range,
};

/// 0 is returned if and only if all files are accepted, unless a fault or running out of memory stops the replay. Then all inputs were
/// played, and what was found after them is written.
pub fn done_exactly()
    ensures only { (names : ReplayFiles) → AtEnd 0 (replay_plan names) (Replayed names) }
    ensures then { (names : ReplayFiles) → OfEachEnd (replay_plan names) (λ old new status.
        Accepted names old.files.content → UnlessStopped 0 status) }
    ensures line { (names : ReplayFiles) (content : Content) → Accepted names content → line_at (replay_plan names content) 0 ≡ [] }
{
    accepted_secrets_are_held();
    accepted_sessions_are_in_range();
    stages_go_in_order();
}

/// If all files are accepted and no fault count rose, the status is 0, unless memory runs out. The same holds if the outside is reliable.
pub fn done_where_all_is_accepted()
    ensures without_faults { (names : ReplayFiles) → OfEachEnd (replay_plan names) (λ old new status.
        Accepted names old.files.content → (Rose old.files.faults new.files.faults → ⊥) → (Rose old.out.faults new.out.faults → ⊥) →
        (status ≡ 0) ⊎ (status ≡ 70)) }
    ensures reliable { (names : ReplayFiles) (old new : Outside) (status : ℕ) → Ends (replay_plan names) old new status → IsReliable old → IsTrue new.files.told →
        Accepted names old.files.content → (status ≡ 0) ⊎ (status ≡ 70) }
{}

/// 3 is returned only if the fault count of the files rose; if the reads agree with the content, a call that a replay makes failed. A file
/// that doesn't exist or is too large stops the replay.
pub fn file_failed_only()
    ensures rose { (names : ReplayFiles) (old new : Outside) → Ends (replay_plan names) old new 3 → Rose old.files.faults new.files.faults }
    ensures named { (names : ReplayFiles) → AtEnd 3 (replay_plan names) (λ old new. IsSomeAnd new.files.failed (IsReplayCall names)) }
    ensures no_session { (names : ReplayFiles) → OfEachEnd (replay_plan names) (λ old new status.
        readable old.files.content names.session ≡ None → is_stop status ≡ true) }
    ensures no_key { (names : ReplayFiles) (session : SessionData) → OfEachEnd (replay_plan names) (λ old new status.
        HasSession names.session old.files.content session → readable old.files.content names.key ≡ None → is_stop status ≡ true) }
    ensures no_recording { (names : ReplayFiles) (session : SessionData) (k : Secrets) → OfEachEnd (replay_plan names) (λ old new status.
        KeyAccepted names old.files.content session k → readable old.files.content names.recording ≡ None → is_stop status ≡ true) }
{
    stages_go_in_order();
}

/// 4 is returned if and only if the session exists and is refused, unless a fault or running out of memory stops the replay. Its line
/// contains the first fault.
pub fn session_refused_exactly()
    ensures only { (names : ReplayFiles) → AtEnd 4 (replay_plan names) (λ old new.
        (fault : SessionFault) × HasBadSession names.session old.files.content fault) }
    ensures then { (names : ReplayFiles) (fault : SessionFault) → OfEachEnd (replay_plan names) (λ old new status.
        HasBadSession names.session old.files.content fault → UnlessStopped 4 status) }
    ensures line { (names : ReplayFiles) (content : Content) (fault : SessionFault) → HasBadSession names.session content fault →
        line_at (replay_plan names content) 4 ≡ session_refused fault }
{
    stages_go_in_order();
}

/// 5 is returned if and only if the session is accepted and the key file exists and is refused, unless a fault or running out of memory
/// stops the replay. Its line contains the first fault.
pub fn key_refused_exactly()
    ensures only { (names : ReplayFiles) → AtEnd 5 (replay_plan names) (λ old new.
        (session : SessionData) × (fault : KeyFileFault) × KeyRefused names old.files.content session fault) }
    ensures then { (names : ReplayFiles) (session : SessionData) (fault : KeyFileFault) → OfEachEnd (replay_plan names) (λ old new status.
        KeyRefused names old.files.content session fault → UnlessStopped 5 status) }
    ensures line { (names : ReplayFiles) (content : Content) (session : SessionData) (fault : KeyFileFault) →
        KeyRefused names content session fault → line_at (replay_plan names content) 5 ≡ key_refused fault }
{
    stages_go_in_order();
}

/// 8 is returned if and only if the session and the key are accepted and the recording exists and is refused, unless a fault or running out
/// of memory stops the replay. Its line contains the first fault.
pub fn input_refused_exactly()
    ensures only { (names : ReplayFiles) → AtEnd 8 (replay_plan names) (λ old new.
        (session : SessionData) × (k : Secrets) × (fault : RecordFault) × InputRefused names old.files.content session k fault) }
    ensures then { (names : ReplayFiles) (session : SessionData) (k : Secrets) (fault : RecordFault) →
        OfEachEnd (replay_plan names) (λ old new status. InputRefused names old.files.content session k fault → UnlessStopped 8 status) }
    ensures line { (names : ReplayFiles) (content : Content) (session : SessionData) (k : Secrets) (fault : RecordFault) →
        InputRefused names content session k fault → line_at (replay_plan names content) 8 ≡ recording_refused fault }
{
    stages_go_in_order();
}

/// 7 is returned only if the fault count of out rose. If the reads agree with the content, everything was accepted before; the fault occurs
/// after everything that its input plays, and before anything that was found is written.
pub fn output_failed_only()
    ensures rose { (names : ReplayFiles) (old new : Outside) → Ends (replay_plan names) old new 7 → Rose old.out.faults new.out.faults }
    ensures in_order { (names : ReplayFiles) → AtEnd 7 (replay_plan names) (PlayedUpTo names 7) }
{
    accepted_sessions_are_in_range();
    stages_go_in_order();
}

/// How far a replay got, whatever stopped it, if the reads agree with the content. One of four cases holds. Nothing was changed or printed;
/// or the played file was created and is empty; or there is one input such that the played file and the transcript contain everything of
/// the earlier inputs and nothing of the later ones; or everything of the inputs was written, and what was found after them was written in
/// order up to some point.
pub fn a_replay_stops_in_order()
    ensures { (names : ReplayFiles) → OfEachEnd (replay_plan names) (λ old new status.
        ChangesNothing old new ⊎ (IsMade names old new ⊎ (PlayedUpTo names status old new ⊎ FoundUpTo names status old new))) }
{
    accepted_sessions_are_in_range();
    stages_go_in_order();
}

/// At every status, only the played file and the files of what was found are changed.
pub fn only_its_files_are_changed()
    ensures { (names : ReplayFiles) (path : List ℕ) → OfEachEnd (replay_plan names) (λ old new status.
        path ≢ names.played → (IsFindingName names.found path → ⊥) → new.files.content path ≡ old.files.content path) }
{
    stages_go_in_order();
}

/// After a refusal, and if the arguments aren't a valid command line, every file is unchanged and nothing is printed.
pub fn refusals_change_nothing()
    ensures usage { OfEachEnd (ending 2 usage) (λ old new status. ChangesNothing old new) }
    ensures session { (names : ReplayFiles) → AtEnd 4 (replay_plan names) ChangesNothing }
    ensures key { (names : ReplayFiles) → AtEnd 5 (replay_plan names) ChangesNothing }
    ensures input { (names : ReplayFiles) → AtEnd 8 (replay_plan names) ChangesNothing }
{
    stages_go_in_order();
}

/// At every status, nothing is changed; or the played file contains a prefix of what the rules play over the recording's inputs, and the
/// transcript a prefix of what they send.
pub fn a_front_is_played()
    ensures { (names : ReplayFiles) → OfEachEnd (replay_plan names) (λ old new status.
        ChangesNothing old new ⊎ PlayedFront names old new) }
{
    accepted_sessions_are_in_range();
    stages_go_in_order();
}

/// At every status, a replay printed nothing; or its files were accepted, it printed a prefix of the transcript up to one place of its
/// recording, and its peer keeps the rules at each moment of the recording.
pub fn a_replay_keeps_the_rules()
    ensures { (names : ReplayFiles) → OfEachEnd (replay_plan names) (ReplayHeadline names) }
{
    accepted_secrets_are_held();
    accepted_sessions_are_in_range();
    peers_keep_the_rules();
    stages_go_in_order();
}

/// The replay of the recording of a completed peer run ends with 0, unless a fault or running out of memory stops it. Then it shows exactly
/// what the peer sent, plays the same bytes, and finds the same.
pub fn a_finished_recording_is_replayed()
    ensures { IsReplayed }
{
    accepted_keys_are_read_back();
    done_exactly();
    paced_inputs_stay_paced();
    recordings_read_back();
}
