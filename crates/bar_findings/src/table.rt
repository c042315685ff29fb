//! Writing the table file, which contains the manifests.
ghost use Rattle.std.specs.Prelude.{◌≡◌, ◌∷◌, ◌^◌, ◌<◌, [], IfOk, length, map, string_bytes};
ghost use Rattle.std.specs.Option.{option_to_list};
ghost use Rattle.bar_bytes.specs.Code.Rooms.{kept_in};
ghost use Rattle.bar_outside.specs.Disk.{Content};
ghost use Rattle.bar_outside.specs.Plan.{Outside, with_files};
ghost use Rattle.bar_outside.specs.Plan.Action.{append};
ghost use Rattle.bar_outside.specs.Code.Follows.{Follows};
ghost use Rattle.bar_wire.specs.Grammar.{entry as entry_bytes};
ghost use Rattle.bar_findings.specs.Findings.{AreShort, finding_actions, in_order, table_name, table_of};

use bar_bytes::Rooms;
use bar_judge::add_entry;
use bar_outside::{Fault, Files, append_file, create_file};
use std::alloc::{AllocError, Global};

/// The name of the table file.
fn table_name(alloc: Global, found: &str) -> Result<String, AllocError>
    ensures { IfOk result (λ name. string_bytes name ≡ table_name found.now) }
{
    format!(in alloc; "{found}.table")
}

/// Creates the table file with an entry for each manifest of the first `rounds` rounds.
pub fn write_table<F: Files>(
    alloc: Global,
    manifests: &Rooms,
    rounds: u32,
    found: &str,
    files: &mut F,
) -> Result<(), Fault>
    ensures { (w : Outside) (was : Content) → AreShort (kept_in manifests.now)
        → Follows (finding_actions (table_of found.now (kept_in manifests.now) rounds))
        (with_files w (F.disk files.old was)) (with_files w (F.disk files.new was)) result }
{
    let name = table_name(alloc, found)?;
    create_file(files, name.as_str())?;
    append_entries(alloc, manifests, rounds, name.as_str(), files)
}

/// Appends the entries of the manifests of the first `rounds` rounds, in increasing order.
fn append_entries<F: Files>(
    alloc: Global,
    manifests: &Rooms,
    rounds: u32,
    name: &str,
    files: &mut F,
) -> Result<(), Fault>
    ensures { (w : Outside) (was : Content) → AreShort (kept_in manifests.now)
        → Follows (map (append name.now) (map entry_bytes (in_order (kept_in manifests.now) rounds)))
        (with_files w (F.disk files.old was)) (with_files w (F.disk files.new was)) result }
{
    for before in 0..rounds {
        append_entry(alloc, manifests, before as usize + 1, name, files)?;
    }
    Ok(())
}

/// Appends the entry of the manifest of a round, if there is one.
fn append_entry<F: Files>(
    alloc: Global,
    manifests: &Rooms,
    round: usize,
    name: &str,
    files: &mut F,
) -> Result<(), Fault>
    ensures { (w : Outside) (was : Content) → AreShort (kept_in manifests.now)
        → Follows (map (append name.now) (map entry_bytes (option_to_list (kept_in manifests.now round))))
        (with_files w (F.disk files.old was)) (with_files w (F.disk files.new was)) result }
{
    match manifests.get(round) {
        Some(manifest) => append_manifest(alloc, manifest, name, files),
        None => Ok(()),
    }
}

/// Appends the entry of a manifest.
fn append_manifest<F: Files>(
    alloc: Global,
    manifest: &[u8],
    name: &str,
    files: &mut F,
) -> Result<(), Fault>
    ensures { (w : Outside) (was : Content) → length manifest.now < 2 ^ 16 → Follows (append name.now (entry_bytes manifest.now) ∷ [])
        (with_files w (F.disk files.old was)) (with_files w (F.disk files.new was)) result }
{
    // The length of a manifest always fits two bytes.
    let len = manifest.len().min(usize::from(u16::MAX));
    let mut bytes = Vec::new(alloc);
    add_entry(&mut bytes, &manifest[..len])?;
    append_file(files, name, &bytes)
}
