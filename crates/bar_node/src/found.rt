//! Writing what a core found to files.
ghost use Rattle.std.specs.Prelude.{List};
ghost use Rattle.bar_wire.specs.Inputs as plain;
ghost use Rattle.bar_outside.specs.Disk.{Content};
ghost use Rattle.bar_outside.specs.Plan.{Outside, with_files};
ghost use Rattle.bar_outside.specs.Code.Follows.{Follows};
ghost use Rattle.bar_findings.specs.Findings.{findings_actions};
ghost use Rattle.bar_node.specs.Runs.{found_after};

use bar_core::Core;
use bar_findings::write_findings;
use bar_outside::{Fault, Files};
use std::alloc::Global;

/// Writes the manifests that a core keeps, by round, and its evidence, by party. The name of each file begins with `found`.
pub fn write_found<C: Core, F: Files>(
    alloc: Global,
    core: &C,
    found: &str,
    files: &mut F,
) -> Result<(), Fault>
    ensures { (taken : List plain.Input) → C.stands core.now taken → (w : Outside) (was : Content) →
        Follows (findings_actions (found_after found.now (C.face core.now).rules taken))
        (with_files w (F.disk files.old was)) (with_files w (F.disk files.new was)) result }
{
    let shape = core.session_shape();
    write_findings(
        alloc,
        core.kept_manifests(),
        shape.rounds,
        core.evidence_by_party(),
        shape.peers,
        found,
        files,
    )
}
