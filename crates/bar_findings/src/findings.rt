//! Writing everything that a party found.
ghost use Rattle.bar_bytes.specs.Code.Rooms.{kept_in};
ghost use Rattle.bar_outside.specs.Disk.{Content};
ghost use Rattle.bar_outside.specs.Plan.{Outside, with_files};
ghost use Rattle.bar_outside.specs.Code.Follows.{Follows};
ghost use Rattle.bar_findings.specs.Findings.{AreShort, findings_actions, findings_of};

use crate::evidence::write_evidence;
use crate::table::write_table;
use bar_bytes::Rooms;
use bar_outside::{Fault, Files};
use std::alloc::Global;

/// Writes what a party found: the manifests of the first `rounds` rounds, by round, and then the evidence against the first `parties`
/// parties, by party. The name of each file begins with `found`.
pub fn write_findings<F: Files>(
    alloc: Global,
    manifests: &Rooms,
    rounds: u32,
    evidence: &Rooms,
    parties: u16,
    found: &str,
    files: &mut F,
) -> Result<(), Fault>
    ensures { (w : Outside) (was : Content) → AreShort (kept_in manifests.now)
        → Follows (findings_actions (findings_of found.now (kept_in manifests.now) rounds (kept_in evidence.now) parties))
        (with_files w (F.disk files.old was)) (with_files w (F.disk files.new was)) result }
{
    write_table(alloc, manifests, rounds, found, files)?;
    write_evidence(alloc, evidence, parties, found, files)
}
