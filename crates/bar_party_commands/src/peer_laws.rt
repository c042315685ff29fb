//! What each exit status of `peer` means, and what then holds.
ghost use Rattle.std.specs.Prelude.{IsTrue, ◌≡◌, ◌⊎◌, ℕ, List};
ghost use Rattle.bar_outside.specs.Code.Causes.{Rose};
ghost use Rattle.bar_outside.specs.Ends.{UnlessStopped};
ghost use Rattle.bar_outside.specs.Code.Follows.{IsReliable};
ghost use Rattle.bar_outside.specs.Plan.{Outside};
ghost use Rattle.bar_seeds.specs.declared.secrets.Secrets.{Secrets};
ghost use Rattle.bar_session.specs.SessionData.{SessionData};
ghost use Rattle.bar_party_commands.specs.PeerPlan.{PeerAccepted, PeerNames, peer_plan};
ghost use Rattle.bar_party_commands.specs.PeerStands.{IsBoundOrUnused, IsPeerFile, KeyRefused, PeerDone, PeerStands, SessionRefused};
ghost use Rattle.bar_party_commands.specs.Running.{AtRunEnd, OfEachRun, RunEnds};
ghost use Rattle.bar_party_commands.specs.Stands.{IsUntouched};

use bar_node::{a_part_of_a_peer_kept, a_run_finds, a_whole_peer_kept, a_whole_run_sent};
use bar_outside::stages_go_in_order;
use bar_peer::rules_give_the_run;
use bar_record::paced_inputs_are_few;
use bar_roster::laws::{accepted_secrets_are_held, accepted_sessions_are_in_range};

/// 0 is returned only if the files were accepted and the run completed; then everything was sent, played, recorded, written and printed.
pub fn a_peer_is_done()
    ensures { (names : PeerNames) → AtRunEnd 0 (peer_plan names) (PeerDone names) }
{
    accepted_secrets_are_held();
    accepted_sessions_are_in_range();
    a_run_finds();
    a_whole_peer_kept();
    a_whole_run_sent();
    paced_inputs_are_few();
    stages_go_in_order();
    rules_give_the_run();
}

/// At every status one of these holds. Nothing was changed; or the files were accepted, and spending the key and creating the files may be
/// done in part; or the link is bound, the key is spent, and the run was done in order up to some point.
pub fn a_peer_stands()
    ensures { (names : PeerNames) → OfEachRun (peer_plan names) (λ old new status. PeerStands names old new) }
{
    accepted_secrets_are_held();
    a_part_of_a_peer_kept();
    paced_inputs_are_few();
    stages_go_in_order();
}

/// At every status, either the link wasn't used and the status isn't 0, or the link is bound to the key's party and the key is spent.
pub fn a_bound_peer_has_spent_its_key()
    ensures { (names : PeerNames) → OfEachRun (peer_plan names) (λ old new status. IsBoundOrUnused names old new status) }
{
    accepted_secrets_are_held();
    stages_go_in_order();
}

/// At every status, only the key file, the played file, the recording and the files of what was found are changed.
pub fn only_its_files_are_changed_by_a_peer()
    ensures { (names : PeerNames) (path : List ℕ) → OfEachRun (peer_plan names) (λ old new status.
        (IsPeerFile names path → ⊥) → new.files.content path ≡ old.files.content path) }
{
    stages_go_in_order();
}

/// 4 and 5 are returned if and only if the session, or the key file, exists and is refused, unless a fault or running out of memory stops
/// the command. Then nothing was changed.
pub fn a_refused_peer_changes_nothing()
    ensures session { (names : PeerNames) → AtRunEnd 4 (peer_plan names) (λ old new.
        SessionRefused names old.files.content × IsUntouched old new) }
    ensures key { (names : PeerNames) → AtRunEnd 5 (peer_plan names) (λ old new.
        KeyRefused names old.files.content × IsUntouched old new) }
    ensures no_session { (names : PeerNames) → OfEachRun (peer_plan names) (λ old new status.
        SessionRefused names old.files.content → UnlessStopped 4 status) }
    ensures no_key { (names : PeerNames) → OfEachRun (peer_plan names) (λ old new status.
        KeyRefused names old.files.content → UnlessStopped 5 status) }
{
    stages_go_in_order();
}

/// If the files are accepted and no fault count rose, the status is 0, unless memory runs out. The same holds if the outside is reliable.
pub fn a_peer_is_done_where_all_is_accepted()
    ensures without_faults { (names : PeerNames) (s : SessionData) (k : Secrets) → OfEachRun (peer_plan names) (λ old new status.
        PeerAccepted names old.files.content s k → (Rose old.files.faults new.files.faults → ⊥) →
        (Rose old.out.faults new.out.faults → ⊥) → (Rose old.wire.faults new.wire.faults → ⊥) → (status ≡ 0) ⊎ (status ≡ 70)) }
    ensures reliable { (names : PeerNames) (s : SessionData) (k : Secrets) (old new : Outside) (status : ℕ) →
        RunEnds (peer_plan names) old new status → IsReliable old → IsTrue new.files.told → PeerAccepted names old.files.content s k →
        (status ≡ 0) ⊎ (status ≡ 70) }
{}
