//! Properties of how a command ends that hold for every plan.
ghost use Rattle.std.specs.Prelude.{◌≡◌, ◌⊎◌, ℕ, List, true};
ghost use Rattle.bar_outside.specs.Code.Causes.{Rose};
ghost use Rattle.bar_outside.specs.Disk.{Content};
ghost use Rattle.bar_outside.specs.Plan.{Plan, Touches, is_stop};
ghost use Rattle.bar_outside.specs.Ends.{Carried, OfEachEnd};
ghost use Rattle.bar_outside.specs.Stages.{EndsThere, GoesInOrder, NamesFirst, ReadsFirst, SaysItsLine, ShowsThere, Stages, Went, plan_by};

/// At every status, a file that no action of the plan creates or appends to is unchanged.
pub fn others_stay()
    ensures { (plan : Content → Plan) (path : List ℕ) → OfEachEnd plan (λ old new status.
        (Touches (plan old.files.content).actions path → ⊥) → new.files.content path ≡ old.files.content path) }
{}

/// The plan was carried out to its end, or a fault or running out of memory stopped it.
pub fn carried_or_stopped()
    ensures { (plan : Content → Plan) → OfEachEnd plan (λ old new status.
        Carried (plan old.files.content) old new status ⊎ (is_stop status ≡ true)) }
{}

/// If no fault count rose, the plan was carried out to its end, unless memory ran out.
pub fn done_without_faults()
    ensures { (plan : Content → Plan) → OfEachEnd plan (λ old new status.
        (Rose old.files.faults new.files.faults → ⊥) → (Rose old.out.faults new.out.faults → ⊥) →
        (Rose old.wire.faults new.wire.faults → ⊥) → Carried (plan old.files.content) old new status ⊎ (status ≡ 70)) }
{}

/// What was done determines how far each part of a plan got. The meaning of a command's statuses follows from these clauses, part by part.
pub fn plans_go_in_order()
    // how a command ended determines how far its plan got
    ensures went { (plan : Content → Plan) → OfEachEnd plan (λ old new status. Went (plan old.files.content) old new status) }
    ensures reads { ReadsFirst }
    ensures ends { EndsThere }
    ensures shows { ShowsThere }
    // which calls it makes
    ensures names { NamesFirst }
{}

/// How a command made of stages ends. The meaning of each status follows from these clauses.
pub fn stages_go_in_order()
    ensures goes { (stages : Stages) → OfEachEnd (plan_by stages) (GoesInOrder stages) }
    ensures line { SaysItsLine }
    // what was done at an end without actions, and at an end that prints a line
    ensures ends { EndsThere }
    ensures shows { ShowsThere }
{}
