//! Reading the recordings of an audit.
ghost use Rattle.std.specs.Prelude.{◌≡◌, ◌<◌, ◌≤◌, ◌++◌, ◌∷◌, [], List, IfOk, string_bytes};
ghost use Rattle.bar_outside.specs.Disk.{Content};
ghost use Rattle.bar_outside.specs.Plan.{Outside, with_files};
ghost use Rattle.bar_record.specs.Code.Inputs.{inputs_left};
ghost use Rattle.bar_audit.specs.Audits.{Audits};
ghost use Rattle.bar_audit.specs.Recordings.{Recording};
ghost use Rattle.bar_cli.specs.Audit.Plan.{ReadsRecordings, recording_name};
ghost use Rattle.bar_cli.specs.Code.Views.{audit_view};

use crate::audit::names::AuditNames;
use crate::reading::read_recording;
use crate::verifier::verifier_of;
use bar_audit::{Audit, AuditFault};
use bar_bytes::Steps;
use bar_outside::{Fault, Files, read_file};
use bar_record::{Items, RecordFault};
use bar_roster::Session;
use std::alloc::{AllocError, Global};
use std::marker::Brand;
use std::sync::ledger::{Blank, Ledger};

fn add_counted<L: Ledger>(
    audit: Audit,
    session: &Session,
    party: u16,
    items: Items<'_>,
    blank: Blank,
) -> Result<Audit, AuditFault>
    requires name { blank.name ≡ L.name }
    requires parts { blank.parts ≡ L.parts }
    requires some { 0 < L.parts }
    ensures { IfOk result (λ more. (recordings : List Recording) → Audits session.now recordings audit →
        Audits session.now (recordings ++ (record { party = party; inputs = inputs_left items.entry }) ∷ []) more) }
{
    let verifier = verifier_of(session);
    audit.add(
        session,
        &verifier,
        party,
        items,
        &mut Steps::<L>::new(blank),
    )
}

/// The auditor with the recording of one more party. The number of steps is counted but not used.
fn add_recording(
    audit: Audit,
    session: &Session,
    party: u16,
    items: Items<'_>,
) -> Result<Audit, AuditFault>
    ensures { IfOk result (λ more. (recordings : List Recording) → Audits session.now recordings audit →
        Audits session.now (recordings ++ (record { party = party; inputs = inputs_left items.entry }) ∷ []) more) }
{
    add_counted::<Brand>(audit, session, party, items, Blank::new(1))
}

/// The name of a party's recording.
fn recording_name(alloc: Global, results: &str, party: u16) -> Result<String, AllocError>
    ensures { IfOk result (λ name. string_bytes name ≡ recording_name results.now party) }
{
    format!(in alloc; "{results}.{party}.recording")
}

/// An auditor with the recordings of all parties, in order. Each recording is accepted before the next is read; the first one that is
/// refused gives its first fault.
pub fn read_recordings<F: Files>(
    alloc: Global,
    session: &Session,
    names: &AuditNames<'_>,
    files: &mut F,
) -> Result<Result<Audit, RecordFault>, Fault>
    requires some { 1 ≤ names.now.first }
    requires rising { names.now.first ≤ names.now.last }
    ensures { (w : Outside) (was : Content) → ReadsRecordings (audit_view names.now) session.now result
        (with_files w (F.disk files.old was)) (with_files w (F.disk files.new was)) }
{
    let mut audit = Audit::make(alloc);
    for place in 0..names.last - names.first + 1 {
        let party = names.first + place;
        let name = recording_name(alloc, names.results, party)?;
        let bytes = read_file(files, name.as_str())?;
        let items = match read_recording(session, party, &bytes) {
            Ok(items) => items,
            Err(fault) => return Ok(Err(fault)),
        };
        // No party is added twice, so the failure is that memory ran out.
        let Ok(more) = add_recording(audit, session, party, items) else {
            return Err(Fault::NoMemory);
        };
        audit = more;
    }
    Ok(Ok(audit))
}
