//! Giving out what an input plays and sends.
ghost use Rattle.std.specs.Prelude.{◌≡◌, ◌≤◌, [], List, length, IfOk, OnOk};
ghost use Rattle.std.specs.List.{concat, flat_map};
ghost use Rattle.std.specs.Option.{option_copied};
ghost use Rattle.bar_outside.specs.Disk.{Content};
ghost use Rattle.bar_outside.specs.Plan.{Outside, with_files};
ghost use Rattle.bar_outside.specs.Code.Follows.{Follows};
ghost use Rattle.bar_wire.specs.Inputs as plain;
ghost use Rattle.bar_wire.specs.Limits.{largest_content, largest_datagram};
ghost use Rattle.bar_core.specs.Code.Face.{Keeps};
ghost use Rattle.bar_core.specs.Rules.{Send};
ghost use Rattle.bar_node.specs.Code.Turns.{kept};
ghost use Rattle.bar_node.specs.Code.Counting.{capped};

use crate::outlet::Outlet;
use bar_core::Core;
use bar_outside::{Fault, Files, append_file};

/// Appends bytes to a file, if one is kept.
pub fn keep_bytes<F: Files>(files: &mut F, path: Option<&str>, bytes: &[u8]) -> Result<(), Fault>
    ensures { (w : Outside) (was : Content) → Follows (kept (option_copied path.entry) bytes.now)
        (with_files w (F.disk files.old was)) (with_files w (F.disk files.new was)) result }
{
    match path {
        Some(path) => append_file(files, path, bytes),
        None => Ok(()),
    }
}

/// Plays the contents of the last input that are still to be given out, and returns how many bytes they have.
pub fn play_all<C: Core, F: Files>(
    core: &mut C,
    files: &mut F,
    played: Option<&str>,
    buf: &mut [u8],
) -> Result<u64, Fault>
    requires { largest_content ≤ length buf.old }
    ensures follows { (w : Outside) (was : Content) → Follows (flat_map (kept (option_copied played.entry)) (C.face core.old).plays)
        (with_files w (F.disk files.old was)) (with_files w (F.disk files.new was)) result }
    ensures count { IfOk result (λ count. count ≡ capped (length (concat (C.face core.old).plays))) }
    ensures keeps { OnOk result (Keeps (C.stands core.old) (C.stands core.new) (C.face core.old) (C.face core.new)) }
    ensures played { OnOk result ((C.face core.new).plays ≡ []) }
    ensures left { OnOk result ((C.face core.new).left ≡ (C.face core.old).left) }
    ensures owes { OnOk result ((inputs : List plain.Input) (sends : List Send) →
        C.owes core.old inputs sends → C.owes core.new inputs sends) }
{
    let mut count: u64 = 0;
    'contents: while let Some(len) = core.give_content(buf) {
        keep_bytes(files, played, &buf[..len])?;
        count = count.saturating_add(len as u64);
    }
    Ok(count)
}

/// Gives out the remaining datagrams of the last input, which has this number, and returns how many there were.
pub fn give_all<C: Core, T, O: Outlet<T>>(
    core: &mut C,
    number: u64,
    outlet: &O,
    target: &mut T,
    buf: &mut [u8],
) -> Result<u64, Fault>
    requires { largest_datagram ≤ length buf.old }
    ensures follows { (inputs : List plain.Input) (sends : List Send) → C.stands core.old inputs → C.owes core.old inputs sends →
        (w : Outside) → Follows (flat_map (O.given number) sends) (O.placed w target.old) (O.placed w target.new) result }
    ensures count { (inputs : List plain.Input) (sends : List Send) → C.stands core.old inputs → C.owes core.old inputs sends →
        IfOk result (λ count. count ≡ capped (length sends)) }
    ensures keeps { OnOk result (Keeps (C.stands core.old) (C.stands core.new) (C.face core.old) (C.face core.new)) }
    ensures sent { OnOk result ((C.face core.new).left ≡ 0) }
    ensures plays { OnOk result ((C.face core.new).plays ≡ (C.face core.old).plays) }
{
    let mut count: u64 = 0;
    'datagrams: while let Some((to, len)) = core.give_datagram(buf) {
        outlet.give(target, number, to, &buf[..len])?;
        count = count.saturating_add(1);
    }
    Ok(count)
}
