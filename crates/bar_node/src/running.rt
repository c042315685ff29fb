//! Runs over a link.
ghost use Rattle.std.specs.Prelude.{◌≡◌, [], List, Some, None, OnOk};
ghost use Rattle.std.specs.Option.{option_copied};
ghost use Rattle.bar_wire.specs.Inputs as plain;
ghost use Rattle.bar_outside.specs.Disk.{Content};
ghost use Rattle.bar_outside.specs.Plan.{Outside, with_files};
ghost use Rattle.bar_outside.specs.Code.Follows.{Follows};
ghost use Rattle.bar_core.specs.Code.Face.{IsIdle};
ghost use Rattle.bar_node.specs.Runs.{RanNode, closing};

use crate::arrivals::run_inputs;
use crate::buffer::buffer;
use crate::found::write_found;
use crate::giving::keep_bytes;
use crate::kept::Kept;
use crate::paths::Paths;
use crate::summary::Summary;
use bar_core::Core;
use bar_outside::{Fault, Files, Link};
use bar_record::LARGEST_ENTRY;
use bar_wire::LARGEST_DATAGRAM;
use std::alloc::Global;

/// Ends the recording, if one is kept, and writes what was found.
fn close<C: Core, F: Files>(
    alloc: Global,
    core: &C,
    files: &mut F,
    recording: Option<&str>,
    found: &str,
) -> Result<(), Fault>
    ensures { (taken : List plain.Input) → C.stands core.now taken → (w : Outside) (was : Content) →
        Follows (closing (option_copied recording.entry) found.now (C.face core.now).rules taken)
        (with_files w (F.disk files.old was)) (with_files w (F.disk files.new was)) result }
{
    keep_bytes(files, recording, &[0])?;
    write_found(alloc, core, found, files)
}

/// Runs a core that has taken no input over a link.
fn run_node<C: Core, L: Link, F: Files>(
    alloc: Global,
    core: &mut C,
    link: &mut L,
    files: &mut F,
    kept: &Kept<'_>,
    found: &str,
) -> Result<Summary, Fault>
    requires stands { C.stands core.old [] }
    requires idle { IsIdle (C.face core.old) }
    ensures ran { (was : Content) → RanNode (option_copied kept.now.recording) (option_copied kept.now.played) found.now (C.face core.old).rules
        (C.stands core.new) (F.disk files.old was) (F.disk files.new was) (L.wire link.old) (L.wire link.new) result }
    ensures rules { OnOk result ((C.face core.new).rules ≡ (C.face core.old).rules) }
{
    let mut inbox = buffer(alloc, usize::from(LARGEST_DATAGRAM))?;
    let mut outbox = buffer(alloc, LARGEST_ENTRY)?;
    let counts = run_inputs(core, link, files, kept, &mut inbox, &mut outbox)?;
    close(alloc, core, files, kept.recording, found)?;
    Ok(Summary {
        ticks: core.ticks_taken(),
        sent: counts.sent,
        played: counts.played,
    })
}

/// Runs a peer that has taken no input over a bound link, up to the link's end or the last tick. Each input is recorded before it is taken.
/// What the peer plays goes into a file, and what it sends is sent over the link. The played file is created, and so is the recording, with
/// its head. What it found is written last.
///
/// # Errors
///
/// `Link` and `File` if a call of the link or of the files failed, and `NoMemory`.
pub fn run_peer<C: Core, L: Link, F: Files>(
    alloc: Global,
    core: &mut C,
    link: &mut L,
    files: &mut F,
    paths: &Paths<'_>,
) -> Result<Summary, Fault>
    requires stands { C.stands core.old [] }
    requires idle { IsIdle (C.face core.old) }
    ensures ran { (was : Content) → RanNode (Some paths.now.recording.now) (Some paths.now.played.now) paths.now.found.now (C.face core.old).rules
        (C.stands core.new) (F.disk files.old was) (F.disk files.new was) (L.wire link.old) (L.wire link.new) result }
    ensures rules { OnOk result ((C.face core.new).rules ≡ (C.face core.old).rules) }
{
    let kept = Kept {
        recording: Some(paths.recording),
        played: Some(paths.played),
    };
    run_node(alloc, core, link, files, &kept, paths.found)
}

/// Runs a broadcaster that has taken no input over a bound link, up to the link's end or the last tick. What it found is written last.
///
/// # Errors
///
/// Those of a peer's run.
pub fn run_caster<C: Core, L: Link, F: Files>(
    alloc: Global,
    core: &mut C,
    link: &mut L,
    files: &mut F,
    found: &str,
) -> Result<Summary, Fault>
    requires stands { C.stands core.old [] }
    requires idle { IsIdle (C.face core.old) }
    ensures ran { (was : Content) → RanNode None None found.now (C.face core.old).rules (C.stands core.new)
        (F.disk files.old was) (F.disk files.new was) (L.wire link.old) (L.wire link.new) result }
    ensures rules { OnOk result ((C.face core.new).rules ≡ (C.face core.old).rules) }
{
    let kept = Kept {
        recording: None,
        played: None,
    };
    run_node(alloc, core, link, files, &kept, found)
}
