//! What holds after a run over a link.
ghost use Rattle.std.specs.Prelude.{◌≡◌, ◌++◌, ◌<◌, ◌^◌, [], ℕ, List, Option, Result, Some, Ok, Err, IsTrue};
ghost use Rattle.bar_outside.specs.Disk.{Disk};
ghost use Rattle.bar_outside.specs.Plan.{Outside, Ran, Touches};
ghost use Rattle.bar_outside.specs.Wire.{Arrival, Wire};
ghost use Rattle.bar_outside.specs.declared.fault.Fault.{Fault};
ghost use Rattle.bar_core.specs.Rules.{Rules};
ghost use Rattle.bar_core.specs.Runs.{sends_over};
ghost use Rattle.bar_node.specs.Runs.{RanNode, found_after, is_ended, node_plan, taken_of};
ghost use Rattle.bar_node.specs.Stops.{AreApart, DonePeer, FoundBy, HasRun, IsOther, StoppedPeer, StoppedSending};
ghost use Rattle.bar_node.specs.declared.summary.Summary.{Summary};

use bar_core::Core;

/// A run that completes has sent exactly what the inputs taken send.
pub fn a_run_sends<C: Core>()
    ensures { (recording played : Option (List ℕ)) (found : List ℕ) (r : Rules) (core : C) (files files_new : Disk)
        (wire wire_new : Wire) (summary : Summary) →
        (ran : RanNode recording played found r (C.stands core) files files_new wire wire_new (Ok summary)) →
        wire_new.traffic.sent ≡ wire.traffic.sent ++ sends_over r [] (taken_of r ran.given) }
{}

/// A run that is stopped has sent what all begun inputs but the last send, and a prefix of what the last one sends. At most one due input
/// wasn't begun.
pub fn a_stopped_run_sent<C: Core>()
    ensures { (recording played : Option (List ℕ)) (found : List ℕ) (r : Rules) (core : C) (files files_new : Disk)
        (wire wire_new : Wire) (fault : Fault) →
        (ran : RanNode recording played found r (C.stands core) files files_new wire wire_new (Err fault)) →
        StoppedSending r ran.given wire wire_new }
{}

/// A peer that completes has sent and played everything, and its recording contains the inputs taken and the end mark.
pub fn a_peer_keeps<C: Core>()
    ensures { (recording played found : List ℕ) (r : Rules) (core : C) (files files_new : Disk) (wire wire_new : Wire)
        (summary : Summary) →
        (ran : RanNode (Some recording) (Some played) found r (C.stands core) files files_new wire wire_new (Ok summary)) →
        AreApart recording played found → DonePeer recording played r ran.given files files_new wire wire_new }
{}

/// A peer that is stopped has sent, played and recorded everything for the begun inputs but the last, and a prefix of that for the last.
/// The claim on what was sent holds for any files; the claims on files require that their names differ.
pub fn a_stopped_peer_kept<C: Core>()
    ensures { (recording played found : List ℕ) (r : Rules) (core : C) (files files_new : Disk) (wire wire_new : Wire)
        (fault : Fault) →
        (ran : RanNode (Some recording) (Some played) found r (C.stands core) files files_new wire wire_new (Err fault)) →
        StoppedPeer recording played found r ran.given files files_new wire wire_new }
{}

/// A run that completes has written what was found in the inputs taken. It changed no other file, except for the recording and the played
/// file.
pub fn a_run_writes_its_findings<C: Core>()
    ensures { (recording played : Option (List ℕ)) (found : List ℕ) (r : Rules) (core : C) (files files_new : Disk) (wire wire_new : Wire)
        (summary : Summary) →
        (ran : RanNode recording played found r (C.stands core) files files_new wire wire_new (Ok summary)) →
        r.peers < 2 ^ 64 → FoundBy recording played found r (taken_of r ran.given) files.content files_new.content }
{}

/// At every result, a run changed no file except the recording, the played file and the files of what was found.
pub fn a_run_changes_its_files<C: Core>()
    ensures { (recording played : Option (List ℕ)) (found : List ℕ) (r : Rules) (core : C) (files files_new : Disk) (wire wire_new : Wire)
        (result : Result Summary Fault) →
        (ran : RanNode recording played found r (C.stands core) files files_new wire wire_new result) →
        (path : List ℕ) → IsOther recording played (found_after found r (taken_of r ran.given)) path →
        files_new.content path ≡ files.content path }
{}

// ---- a run as a part of another plan

/// If a run was done, it has sent exactly what the inputs taken send.
pub fn a_whole_run_sent()
    ensures { (recording played : Option (List ℕ)) (found : List ℕ) (r : Rules) (given : List Arrival) (old new : Outside) →
        Ran (node_plan recording played found r given) old new →
        new.wire.traffic.sent ≡ old.wire.traffic.sent ++ sends_over r [] (taken_of r given) }
{}

/// If a peer's run was done up to its end, it has sent and played everything, and its recording contains the inputs taken and the end mark.
pub fn a_whole_peer_kept()
    ensures { (recording played found : List ℕ) (r : Rules) (given : List Arrival) (old new : Outside) →
        Ran (node_plan (Some recording) (Some played) found r given) old new → IsTrue (is_ended r given) → AreApart recording played found →
        DonePeer recording played r given old.files new.files old.wire new.wire }
{}

/// If a run was done up to its end, it has written what was found in the inputs taken. It changed no other file, except for the recording
/// and the played file.
pub fn a_run_finds()
    ensures { (recording played : Option (List ℕ)) (found : List ℕ) (r : Rules) (given : List Arrival) (old new : Outside) →
        Ran (node_plan recording played found r given) old new → IsTrue (is_ended r given) → r.peers < 2 ^ 64 →
        FoundBy recording played found r (taken_of r given) old.files.content new.files.content }
{}

/// If a run was done in part, it has sent what all begun inputs but the last send, and a prefix of what the last one sends.
pub fn a_part_of_a_run_sent()
    ensures { (recording played : Option (List ℕ)) (found : List ℕ) (r : Rules) (given : List Arrival) (old new : Outside) →
        HasRun recording played found r given old new → StoppedSending r given old.wire new.wire }
{}

/// If a peer's run was done in part, it has sent, played and recorded everything for the begun inputs but the last, and a prefix of that
/// for the last.
pub fn a_part_of_a_peer_kept()
    ensures { (recording played found : List ℕ) (r : Rules) (given : List Arrival) (old new : Outside) →
        HasRun (Some recording) (Some played) found r given old new →
        StoppedPeer recording played found r given old.files new.files old.wire new.wire }
{}

/// A run creates and appends to no file except the recording, the played file and the files of what was found.
pub fn a_run_touches_its_files()
    ensures { (recording played : Option (List ℕ)) (found : List ℕ) (r : Rules) (given : List Arrival) (path : List ℕ) →
        IsOther recording played (found_after found r (taken_of r given)) path →
        Touches (node_plan recording played found r given) path → ⊥ }
{}
