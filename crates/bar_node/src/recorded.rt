//! Runs over a recording.
ghost use Rattle.std.specs.Prelude.{◌≡◌, ◌≤◌, [], length, IfOk, OnOk};
ghost use Rattle.bar_outside.specs.Disk.{Content};
ghost use Rattle.bar_outside.specs.Plan.{Outside, with_files, with_out};
ghost use Rattle.bar_outside.specs.Code.Follows.{Follows};
ghost use Rattle.bar_record.specs.Code.Inputs.{inputs_left};
ghost use Rattle.bar_record.specs.Pacing.{paced};
ghost use Rattle.bar_record.specs.Recording.{largest_entry};
ghost use Rattle.bar_core.specs.Code.Face.{IsIdle};
ghost use Rattle.bar_node.specs.Runs.{replay_plan, summary_of};
ghost use Rattle.bar_node.specs.Code.Taking.{Took};
ghost use Rattle.bar_node.specs.Code.Turns.{replay_layout, turns};

use crate::buffer::buffer;
use crate::counts::Counts;
use crate::found::write_found;
use crate::kept::Kept;
use crate::showing::Showing;
use crate::summary::Summary;
use crate::turn::take_paced;
use bar_core::Core;
use bar_outside::{Fault, Files, Sink};
use bar_record::{Items, LARGEST_ENTRY, Paced};
use std::alloc::Global;

/// Takes the inputs of a recording, paced, in order, and does the turn of each.
fn show_inputs<C: Core, F: Files, K: Sink>(
    alloc: Global,
    core: &mut C,
    items: Items<'_>,
    files: &mut F,
    played: &str,
    out: &mut K,
    buf: &mut [u8],
) -> Result<Counts, Fault>
    requires stands { C.stands core.old [] }
    requires idle { IsIdle (C.face core.old) }
    requires room { largest_entry ≤ length buf.old }
    ensures follows { (w : Outside) (was : Content) → Follows (turns (replay_layout played.now) (C.face core.old).rules []
        (paced (C.face core.old).rules.last (inputs_left items.entry)))
        (with_out (with_files w (F.disk files.old was)) (K.stream out.old))
        (with_out (with_files w (F.disk files.new was)) (K.stream out.new)) result }
    ensures took { IfOk result (Took [] (C.stands core.new) (C.face core.old).rules
        (paced (C.face core.old).rules.last (inputs_left items.entry))) }
    ensures rules { OnOk result ((C.face core.new).rules ≡ (C.face core.old).rules) }
{
    let kept = Kept {
        recording: None,
        played: Some(played),
    };
    let mut paced = Paced::new();
    let mut counts = Counts::none();
    for input in items {
        if core.is_over() {
            return Ok(counts);
        }
        let more = take_paced(
            core,
            input,
            counts.inputs,
            &mut paced,
            &Showing { alloc },
            out,
            files,
            &kept,
            buf,
        )?;
        counts = counts.with(more);
    }
    Ok(counts)
}

/// Runs a core that has taken no input over a recording. What it plays goes into a file that is created, and what it sends is shown. What
/// it found is written last.
///
/// # Errors
///
/// `File` and `Output` if a call of the files or a write failed, and `NoMemory`.
pub fn replay<C: Core, F: Files, K: Sink>(
    alloc: Global,
    core: &mut C,
    items: Items<'_>,
    files: &mut F,
    played: &str,
    found: &str,
    out: &mut K,
) -> Result<Summary, Fault>
    requires stands { C.stands core.old [] }
    requires idle { IsIdle (C.face core.old) }
    ensures follows { (w : Outside) (was : Content) → Follows (replay_plan played.now found.now (C.face core.old).rules (inputs_left items.entry))
        (with_out (with_files w (F.disk files.old was)) (K.stream out.old))
        (with_out (with_files w (F.disk files.new was)) (K.stream out.new)) result }
    ensures summary { IfOk result (λ summary. summary ≡
        summary_of (C.face core.old).rules (paced (C.face core.old).rules.last (inputs_left items.entry))) }
    ensures stands { OnOk result (C.stands core.new (paced (C.face core.old).rules.last (inputs_left items.entry))) }
    ensures rules { OnOk result ((C.face core.new).rules ≡ (C.face core.old).rules) }
{
    let mut buf = buffer(alloc, LARGEST_ENTRY)?;
    let counts = show_inputs(alloc, core, items, files, played, out, &mut buf)?;
    write_found(alloc, core, found, files)?;
    Ok(Summary {
        ticks: core.ticks_taken(),
        sent: counts.sent,
        played: counts.played,
    })
}
