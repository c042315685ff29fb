//! Properties of a session that follow from how its children ended.
ghost use Rattle.bar_child_processes.specs.Laws.{DoneSessions, FailedOutputs, FailedSessions, FaultlessSessions};

/// At status 0 every party was started, each child ended with 0, and the lines of all were printed to out in order.
pub fn a_done_session_has_children_that_ended_well()
    ensures { DoneSessions }
{}

/// Status 9 is returned only if the spawner's fault count rose, or a child ended with a status other than 0, which was printed.
pub fn a_failed_session_has_a_child_that_failed()
    ensures { FailedSessions }
{}

/// Status 7 is returned only if the fault count of out rose.
pub fn a_failed_output_is_counted()
    ensures { FailedOutputs }
{}

/// If the spawner and out are reliable, every party was started and every status printed, unless memory runs out. The status is then 0 if
/// all children ended with 0, and 9 otherwise.
pub fn sessions_without_faults_are_told_by_their_children()
    ensures { FaultlessSessions }
{}
