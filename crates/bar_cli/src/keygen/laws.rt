//! What each exit status of `keygen` means, and what then holds.
ghost use Rattle.std.specs.Prelude.{IsTrue, ◌≡◌, ◌≢◌, ◌⊎◌, ℕ, List, [], None, Err, IsSomeAnd, true};
ghost use Rattle.bar_outside.specs.Code.Causes.{Rose};
ghost use Rattle.bar_outside.specs.Disk.{Content, readable};
ghost use Rattle.bar_outside.specs.Code.Follows.{IsReliable};
ghost use Rattle.bar_outside.specs.Plan.{Outside, is_stop, line_at};
ghost use Rattle.bar_outside.specs.Ends.{Ends, OfEachEnd, AtEnd, UnlessStopped, SameFiles, NothingPrinted};
ghost use Rattle.bar_roster.specs.declared.fault.SessionFault.{SessionFault};
ghost use Rattle.bar_cli.specs.Refusals.{session_refused, secret_refused};
ghost use Rattle.bar_cli.specs.Keygen.Plan.{Keygen, KeygenAccepted, KeyMade, KeyWritten, KeyBegun, HasEnoughLeaves, HasFewLeaves, SecretRefused, IsKeygenCall, keygen_plan, leaves_for};

use bar_outside::stages_go_in_order;

/// 0 is returned if and only if there are enough leaves and the secret is accepted, unless a fault or running out of memory stops the
/// command. Then the key was made.
pub fn key_made_exactly()
    ensures only { (asked : Keygen) → AtEnd 0 (keygen_plan asked) (KeyMade asked) }
    ensures then { (asked : Keygen) → OfEachEnd (keygen_plan asked) (λ old new status.
        KeygenAccepted asked old.files.content → UnlessStopped 0 status) }
    ensures line { (asked : Keygen) (content : Content) → KeygenAccepted asked content → line_at (keygen_plan asked content) 0 ≡ [] }
{
    stages_go_in_order();
}

/// If everything is accepted and no fault count rose, the status is 0, unless memory runs out. The same holds if the outside is reliable.
pub fn key_made_where_all_is_accepted()
    ensures without_faults { (asked : Keygen) → OfEachEnd (keygen_plan asked) (λ old new status.
        KeygenAccepted asked old.files.content → (Rose old.files.faults new.files.faults → ⊥) → (Rose old.out.faults new.out.faults → ⊥) →
        (status ≡ 0) ⊎ (status ≡ 70)) }
    ensures reliable { (asked : Keygen) (old new : Outside) (status : ℕ) → Ends (keygen_plan asked) old new status → IsReliable old → IsTrue new.files.told →
        KeygenAccepted asked old.files.content → (status ≡ 0) ⊎ (status ≡ 70) }
{}

/// 3 is returned only if the fault count of the files rose; if the reads agree with the content, a call that `keygen` makes failed. 7 is
/// returned only if the fault count of the output rose. A secret that doesn't exist or is too large stops the command.
pub fn keygen_failed_only()
    ensures file { (asked : Keygen) (old new : Outside) → Ends (keygen_plan asked) old new 3 → Rose old.files.faults new.files.faults }
    ensures named { (asked : Keygen) → AtEnd 3 (keygen_plan asked) (λ old new. IsSomeAnd new.files.failed (IsKeygenCall asked)) }
    ensures output { (asked : Keygen) (old new : Outside) → Ends (keygen_plan asked) old new 7 → Rose old.out.faults new.out.faults }
    ensures no_secret { (asked : Keygen) → OfEachEnd (keygen_plan asked) (λ old new status.
        HasEnoughLeaves asked → readable old.files.content asked.secret ≡ None → is_stop status ≡ true) }
{
    stages_go_in_order();
}

/// 7 is returned only after the key file was written: if the reads agree with the content, it contains its whole text, and a prefix of the
/// lines was printed.
pub fn output_fails_behind_the_key()
    ensures { (asked : Keygen) → AtEnd 7 (keygen_plan asked) (KeyWritten asked) }
{
    stages_go_in_order();
}

/// 4 is returned if and only if there are too few leaves, unless memory runs out; its line contains both numbers. That 4 occurs only then
/// is stated here if the reads agree with the content; `bar_run` states it without this condition.
pub fn leaves_refused_exactly()
    ensures only { (asked : Keygen) → AtEnd 4 (keygen_plan asked) (λ old new. HasFewLeaves asked) }
    ensures then { (asked : Keygen) (old new : Outside) (status : ℕ) → Ends (keygen_plan asked) old new status → HasFewLeaves asked →
        UnlessStopped 4 status }
    ensures line { (asked : Keygen) (content : Content) (fault : SessionFault) →
        leaves_for asked ≡ Err fault → line_at (keygen_plan asked content) 4 ≡ session_refused fault }
{
    stages_go_in_order();
}

/// 8 is returned if and only if there are enough leaves and the secret exists and doesn't have 32 bytes, unless a fault or running out of
/// memory stops the command. Its line contains the length.
pub fn secret_refused_exactly()
    ensures only { (asked : Keygen) → AtEnd 8 (keygen_plan asked) (λ old new.
        (len : ℕ) × SecretRefused asked old.files.content len) }
    ensures then { (asked : Keygen) (len : ℕ) → OfEachEnd (keygen_plan asked) (λ old new status.
        SecretRefused asked old.files.content len → UnlessStopped 8 status) }
    ensures line { (asked : Keygen) (content : Content) (len : ℕ) → SecretRefused asked content len →
        line_at (keygen_plan asked content) 8 ≡ secret_refused len }
{
    stages_go_in_order();
}

/// At every status, only the key file is changed.
pub fn only_the_key_is_changed()
    ensures { (asked : Keygen) (path : List ℕ) → OfEachEnd (keygen_plan asked) (λ old new status.
        path ≢ asked.key → new.files.content path ≡ old.files.content path) }
{
    stages_go_in_order();
}

/// After a refusal every file is unchanged, and nothing was printed.
pub fn refused_keys_change_nothing()
    ensures leaves { (asked : Keygen) → AtEnd 4 (keygen_plan asked) SameFiles }
    ensures leaves_printed { (asked : Keygen) → AtEnd 4 (keygen_plan asked) NothingPrinted }
    ensures secret { (asked : Keygen) → AtEnd 8 (keygen_plan asked) SameFiles }
    ensures secret_printed { (asked : Keygen) → AtEnd 8 (keygen_plan asked) NothingPrinted }
{
    stages_go_in_order();
}

/// At every status, all files are unchanged and nothing was printed; or everything was accepted, the key file contains a prefix of its
/// text, and a prefix of the lines was printed.
pub fn a_front_of_the_key_is_made()
    ensures { (asked : Keygen) → OfEachEnd (keygen_plan asked) (λ old new status.
        (SameFiles old new × NothingPrinted old new) ⊎ KeyBegun asked old new) }
{
    stages_go_in_order();
}
