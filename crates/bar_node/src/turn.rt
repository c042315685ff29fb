//! The turn of an input.
ghost use Rattle.std.specs.Prelude.{◌≡◌, ◌≤◌, ◌<◌, ◌+◌, ◌^◌, ◌∷◌, [], List, length, is_some, true, IfOk, OnOk};
ghost use Rattle.std.specs.Option.{option_copied};
ghost use Rattle.bar_wire.specs.Inputs as plain;
ghost use Rattle.bar_outside.specs.Disk.{Content};
ghost use Rattle.bar_outside.specs.Plan.{Outside, with_files};
ghost use Rattle.bar_outside.specs.Code.Follows.{Follows};
ghost use Rattle.bar_record.specs.Recording.{entry_bytes, IsInRange, largest_entry};
ghost use Rattle.bar_record.specs.Pacing.{due, is_datagram, run_after};
ghost use Rattle.bar_core.specs.Code.Face.{IsIdle};
ghost use Rattle.bar_node.specs.Code.Turns.{kept, turns};
ghost use Rattle.bar_node.specs.Code.Taking.{Took, layout_of};

use crate::counts::Counts;
use crate::giving::{give_all, play_all};
use crate::kept::Kept;
use crate::outlet::Outlet;
use bar_core::Core;
use bar_outside::{Fault, Files, append_file};
use bar_record::{Paced, entry};
use bar_wire::Input;

/// Whether an input is a datagram.
pub fn is_datagram(input: &Input<'_>) -> bool
    ensures { result ≡ is_datagram (plain.plain_input input.now) }
{
    match input {
        Input::Tick => false,
        Input::Datagram(_) => true,
    }
}

// Appends an input's entry to the recording, if one is kept.
fn keep_entry<F: Files>(
    files: &mut F,
    recording: Option<&str>,
    input: &Input<'_>,
    buf: &mut [u8],
) -> Result<(), Fault>
    requires room { largest_entry ≤ length buf.old }
    requires datagram { is_some recording ≡ true → IsInRange (plain.plain_input input.now) }
    ensures { (w : Outside) (was : Content) → Follows (kept (option_copied recording.entry) (entry_bytes (plain.plain_input input.now)))
        (with_files w (F.disk files.old was)) (with_files w (F.disk files.new was)) result }
{
    match recording {
        Some(path) => {
            let len = entry(input, buf);
            append_file(files, path, &buf[..len])
        }
        None => Ok(()),
    }
}

/// Takes an input with this number: its entry is recorded, what it plays is appended to the played file, and what it sends is given out.
fn take_input<C: Core, T, O: Outlet<T>, F: Files>(
    core: &mut C,
    input: Input<'_>,
    number: u64,
    outlet: &O,
    target: &mut T,
    files: &mut F,
    kept: &Kept<'_>,
    buf: &mut [u8],
) -> Result<Counts, Fault>
    requires idle { IsIdle (C.face core.old) }
    requires room { largest_entry ≤ length buf.old }
    requires datagram { is_some kept.now.recording ≡ true → IsInRange (plain.plain_input input) }
    ensures follows { (before : List plain.Input) → C.stands core.old before → number ≡ length before + 1 → (w : Outside) (was : Content) →
        Follows (turns (layout_of kept.now O.given) (C.face core.old).rules before (plain.plain_input input.entry ∷ []))
        (with_files (O.placed w target.old) (F.disk files.old was)) (with_files (O.placed w target.new) (F.disk files.new was)) result }
    ensures took { (before : List plain.Input) → C.stands core.old before →
        IfOk result (Took before (C.stands core.new) (C.face core.old).rules (plain.plain_input input.entry ∷ [])) }
    ensures idle { OnOk result (IsIdle (C.face core.new)) }
    ensures rules { OnOk result ((C.face core.new).rules ≡ (C.face core.old).rules) }
{
    keep_entry(files, kept.recording, &input, buf)?;
    core.take(input);
    let played = play_all(core, files, kept.played, buf)?;
    let sent = give_all(core, number, outlet, target, buf)?;
    Ok(Counts {
        inputs: 1,
        sent,
        played,
    })
}

/// Takes an input after `taken` others, preceded by a tick if one is due. After the last tick nothing is taken.
pub fn take_paced<C: Core, T, O: Outlet<T>, F: Files>(
    core: &mut C,
    input: Input<'_>,
    taken: u64,
    paced: &mut Paced,
    outlet: &O,
    target: &mut T,
    files: &mut F,
    kept: &Kept<'_>,
    buf: &mut [u8],
) -> Result<Counts, Fault>
    requires idle { IsIdle (C.face core.old) }
    requires goes { (C.face core.old).ticks < (C.face core.old).rules.last }
    requires room { largest_entry ≤ length buf.old }
    requires few { taken + 2 < 2 ^ 64 }
    requires datagram { is_some kept.now.recording ≡ true → IsInRange (plain.plain_input input) }
    ensures follows { (before : List plain.Input) → C.stands core.old before → taken ≡ length before → (w : Outside) (was : Content) →
        Follows (turns (layout_of kept.now O.given) (C.face core.old).rules before
        (due (C.face core.old).rules.last (C.face core.old).ticks paced.old (plain.plain_input input.entry)))
        (with_files (O.placed w target.old) (F.disk files.old was)) (with_files (O.placed w target.new) (F.disk files.new was)) result }
    ensures took { (before : List plain.Input) → C.stands core.old before →
        IfOk result (Took before (C.stands core.new) (C.face core.old).rules
        (due (C.face core.old).rules.last (C.face core.old).ticks paced.old (plain.plain_input input.entry))) }
    ensures idle { OnOk result (IsIdle (C.face core.new)) }
    ensures rules { OnOk result ((C.face core.new).rules ≡ (C.face core.old).rules) }
    ensures run { OnOk result (paced.new ≡ run_after paced.old (is_datagram (plain.plain_input input.entry))) }
{
    if !paced.due(is_datagram(&input)) {
        return take_input(core, input, taken + 1, outlet, target, files, kept, buf);
    }
    let first = take_input(
        core,
        Input::Tick,
        taken + 1,
        outlet,
        target,
        files,
        kept,
        buf,
    )?;
    if core.is_over() {
        return Ok(first);
    }
    let second = take_input(core, input, taken + 2, outlet, target, files, kept, buf)?;
    Ok(first.with(second))
}
