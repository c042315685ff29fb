//! Writing the evidence files.
ghost use Rattle.std.specs.Prelude.{◌≡◌, ◌∷◌, [], IfOk, string_bytes};
ghost use Rattle.bar_bytes.specs.Code.Rooms.{kept_in};
ghost use Rattle.bar_outside.specs.Disk.{Content};
ghost use Rattle.bar_outside.specs.Plan.{Outside, with_files};
ghost use Rattle.bar_outside.specs.Code.Follows.{Follows};
ghost use Rattle.bar_findings.specs.Findings.{evidence_name, file_of, files_of, finding_actions, findings_actions};

use bar_bytes::Rooms;
use bar_outside::{Fault, Files, append_file, create_file};
use std::alloc::{AllocError, Global};

/// Creates a file for the evidence against each of these parties, if there is any, in increasing order.
pub fn write_evidence<F: Files>(
    alloc: Global,
    evidence: &Rooms,
    parties: u16,
    found: &str,
    files: &mut F,
) -> Result<(), Fault>
    ensures { (w : Outside) (was : Content) → Follows (findings_actions (files_of found.now (kept_in evidence.now) parties))
        (with_files w (F.disk files.old was)) (with_files w (F.disk files.new was)) result }
{
    for before in 0..parties {
        write_party(alloc, evidence, before + 1, found, files)?;
    }
    Ok(())
}

/// Creates the file of the evidence against a party, if there is any.
fn write_party<F: Files>(
    alloc: Global,
    evidence: &Rooms,
    party: u16,
    found: &str,
    files: &mut F,
) -> Result<(), Fault>
    ensures { (w : Outside) (was : Content) → Follows (findings_actions (file_of (evidence_name found.now party) (kept_in evidence.now party)))
        (with_files w (F.disk files.old was)) (with_files w (F.disk files.new was)) result }
{
    match evidence.get(usize::from(party)) {
        Some(bytes) => write_file(files, evidence_name(alloc, found, party)?.as_str(), bytes),
        None => Ok(()),
    }
}

/// The name of the file of the evidence against a party.
fn evidence_name(alloc: Global, found: &str, party: u16) -> Result<String, AllocError>
    ensures { IfOk result (λ name. string_bytes name ≡ evidence_name found.now party) }
{
    format!(in alloc; "{found}.{party}")
}

/// Creates a file with these bytes.
fn write_file<F: Files>(files: &mut F, name: &str, bytes: &[u8]) -> Result<(), Fault>
    ensures { (w : Outside) (was : Content) → Follows (finding_actions (record { name = name.now; pieces = bytes.now ∷ [] }))
        (with_files w (F.disk files.old was)) (with_files w (F.disk files.new was)) result }
{
    create_file(files, name)?;
    append_file(files, name, bytes)
}
