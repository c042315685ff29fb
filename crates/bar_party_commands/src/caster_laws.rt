//! What each exit status of `broadcaster` means, and what then holds.
ghost use Rattle.std.specs.Prelude.{IsTrue, ◌≡◌, ◌⊎◌, ℕ, List};
ghost use Rattle.bar_outside.specs.Code.Causes.{Rose};
ghost use Rattle.bar_outside.specs.Ends.{UnlessStopped};
ghost use Rattle.bar_outside.specs.Code.Follows.{IsReliable};
ghost use Rattle.bar_outside.specs.Plan.{Outside};
ghost use Rattle.bar_seeds.specs.declared.secrets.Secrets.{Secrets};
ghost use Rattle.bar_session.specs.SessionData.{SessionData};
ghost use Rattle.bar_party_commands.specs.CasterPlan.{CasterAccepted, CasterNames, caster_plan};
ghost use Rattle.bar_party_commands.specs.CasterStands.{CasterDone, CasterStands, IsBoundOrUnused, IsCasterFile, KeyRefused, SessionRefused, StreamRefused};
ghost use Rattle.bar_party_commands.specs.Running.{AtRunEnd, OfEachRun, RunEnds};
ghost use Rattle.bar_party_commands.specs.Stands.{IsUntouched};

use bar_caster::rules_give_the_run;
use bar_node::{a_part_of_a_run_sent, a_run_finds, a_whole_run_sent};
use bar_outside::stages_go_in_order;
use bar_record::paced_inputs_are_few;
use bar_roster::laws::{accepted_secrets_are_held, accepted_sessions_are_in_range};

/// 0 is returned only if the files were accepted and the run completed; then everything was sent, written and printed.
pub fn a_broadcaster_is_done()
    ensures { (names : CasterNames) → AtRunEnd 0 (caster_plan names) (CasterDone names) }
{
    accepted_secrets_are_held();
    accepted_sessions_are_in_range();
    a_run_finds();
    a_whole_run_sent();
    paced_inputs_are_few();
    stages_go_in_order();
    rules_give_the_run();
}

/// At every status one of these holds. Nothing was changed; or the files were accepted, and the key may be spent in part; or the link is
/// bound, the key is spent, and the run was done in order up to some point.
pub fn a_broadcaster_stands()
    ensures { (names : CasterNames) → OfEachRun (caster_plan names) (λ old new status. CasterStands names old new) }
{
    accepted_secrets_are_held();
    a_part_of_a_run_sent();
    paced_inputs_are_few();
    stages_go_in_order();
}

/// At every status, either the link wasn't used and the status isn't 0, or the link is bound to the broadcaster and the key is spent.
pub fn a_bound_broadcaster_has_spent_its_key()
    ensures { (names : CasterNames) → OfEachRun (caster_plan names) (λ old new status. IsBoundOrUnused names old new status) }
{
    accepted_secrets_are_held();
    stages_go_in_order();
}

/// At every status, only the key file and the files of what was found are changed.
pub fn only_its_files_are_changed_by_a_broadcaster()
    ensures { (names : CasterNames) (path : List ℕ) → OfEachRun (caster_plan names) (λ old new status.
        (IsCasterFile names path → ⊥) → new.files.content path ≡ old.files.content path) }
{
    stages_go_in_order();
}

/// 4, 5 and 8 are returned if and only if the session, the key file or the stream exists and is refused, unless a fault or running out of
/// memory stops the command. Then nothing was changed, and no key is spent.
pub fn a_refused_broadcaster_changes_nothing()
    ensures session { (names : CasterNames) → AtRunEnd 4 (caster_plan names) (λ old new.
        SessionRefused names old.files.content × IsUntouched old new) }
    ensures key { (names : CasterNames) → AtRunEnd 5 (caster_plan names) (λ old new.
        KeyRefused names old.files.content × IsUntouched old new) }
    ensures stream { (names : CasterNames) → AtRunEnd 8 (caster_plan names) (λ old new.
        StreamRefused names old.files.content × IsUntouched old new) }
    ensures no_session { (names : CasterNames) → OfEachRun (caster_plan names) (λ old new status.
        SessionRefused names old.files.content → UnlessStopped 4 status) }
    ensures no_key { (names : CasterNames) → OfEachRun (caster_plan names) (λ old new status.
        KeyRefused names old.files.content → UnlessStopped 5 status) }
    ensures no_stream { (names : CasterNames) → OfEachRun (caster_plan names) (λ old new status.
        StreamRefused names old.files.content → UnlessStopped 8 status) }
{
    stages_go_in_order();
}

/// If the files are accepted and no fault count rose, the status is 0, unless memory runs out. The same holds if the outside is reliable.
pub fn a_broadcaster_is_done_where_all_is_accepted()
    ensures without_faults { (names : CasterNames) (s : SessionData) (k : Secrets) (stream : List ℕ) →
        OfEachRun (caster_plan names) (λ old new status. CasterAccepted names old.files.content s k stream →
        (Rose old.files.faults new.files.faults → ⊥) → (Rose old.out.faults new.out.faults → ⊥) →
        (Rose old.wire.faults new.wire.faults → ⊥) → (status ≡ 0) ⊎ (status ≡ 70)) }
    ensures reliable { (names : CasterNames) (s : SessionData) (k : Secrets) (stream : List ℕ) (old new : Outside) (status : ℕ) →
        RunEnds (caster_plan names) old new status → IsReliable old → IsTrue new.files.told → CasterAccepted names old.files.content s k stream →
        (status ≡ 0) ⊎ (status ≡ 70) }
{}
