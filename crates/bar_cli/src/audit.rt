//! The command `audit`.
ghost use Rattle.std.specs.Prelude.{◌≡◌, List, [], false, IfOk, IsTrue};
ghost use Rattle.bar_outside.specs.Disk.{Content};
ghost use Rattle.bar_outside.specs.Plan.{Outside, with_files, with_out};
ghost use Rattle.bar_outside.specs.Ends.{EndsWith};
ghost use Rattle.bar_outside.specs.Stages.{plan_by};
ghost use Rattle.bar_rules.specs.Member.{Session as RulesSession};
ghost use Rattle.bar_audit.specs.Audits.{Audits};
ghost use Rattle.bar_audit.specs.Recordings.{Recording};
ghost use Rattle.bar_cli.specs.Audit.Plan.{audit_plan, is_range, parties_stages, telling_plan};
ghost use Rattle.bar_cli.specs.Audit.Text.{status_of_balance};
ghost use Rattle.bar_cli.specs.Printing.{audit_may_print};
ghost use Rattle.bar_cli.specs.Status.{code_of, code_of_run, is_audit_end, said_at, said_by_run};
ghost use Rattle.bar_cli.specs.Code.Views.{audit_view};

pub mod laws;
pub mod names;
mod recordings;
mod text;

use crate::audit::names::AuditNames;
use crate::audit::recordings::read_recordings;
use crate::audit::text::audit_text;
use crate::status::Status;
use bar_audit::Audit;
use bar_audit::laws::recorded_exchanges_are_one_list;
use bar_outside::{Fault, Files, Sink, read_file, show_bytes};
use bar_roster::{Session, SessionFault};
use bar_session_files::read_session;
use bar_window::Exchange;
use std::alloc::Global;

/// Reads the session and continues if it is accepted.
pub fn audit<F: Files, K: Sink>(
    alloc: Global,
    names: &AuditNames<'_>,
    files: &mut F,
    out: &mut K,
) -> Result<Status, Fault>
    ensures ends { (w : Outside) (was : Content) → EndsWith (audit_plan (audit_view names.now))
        (with_out (with_files w (F.disk files.old was)) (K.stream out.old)) (with_out (with_files w (F.disk files.new was)) (K.stream out.new))
        (code_of_run result) (said_by_run result) }
    ensures answers { IfOk result (λ status. IsTrue (is_audit_end status)) }
    ensures unprinted { audit_may_print (code_of_run result) ≡ false → K.stream out.new ≡ K.stream out.old }
{
    let text = read_file(files, names.session)?;
    match read_session(alloc, &text) {
        Ok(session) => audit_session(alloc, &session, names, files, out),
        Err(SessionFault::NoMemory) => Err(Fault::NoMemory),
        Err(fault) => Ok(Status::SessionRefused(fault)),
    }
}

/// Whether the parties are peers of a session with this many peers, and the first doesn't exceed the last.
fn is_range(names: &AuditNames<'_>, peers: u16) -> bool
    ensures { result ≡ is_range (audit_view names.now) peers }
{
    1 <= names.first && names.first <= names.last && names.last <= peers
}

/// Reads the recordings of the parties and continues if the parties and all recordings are accepted.
fn audit_session<F: Files, K: Sink>(
    alloc: Global,
    session: &Session,
    names: &AuditNames<'_>,
    files: &mut F,
    out: &mut K,
) -> Result<Status, Fault>
    ensures ends { (w : Outside) (was : Content) → EndsWith (plan_by (parties_stages (audit_view names.now) session.now))
        (with_out (with_files w (F.disk files.old was)) (K.stream out.old)) (with_out (with_files w (F.disk files.new was)) (K.stream out.new))
        (code_of_run result) (said_by_run result) }
    ensures answers { IfOk result (λ status. IsTrue (is_audit_end status)) }
    ensures unprinted { audit_may_print (code_of_run result) ≡ false → K.stream out.new ≡ K.stream out.old }
{
    if !is_range(names, session.shape().peers) {
        return Ok(Status::PartiesRefused);
    }
    match read_recordings(alloc, session, names, files)? {
        Ok(audit) => tell(alloc, &audit, out),
        Err(fault) => Ok(Status::RecordingRefused(fault)),
    }
}

/// Prints the report on the recorded exchanges.
fn tell<K: Sink>(alloc: Global, audit: &Audit, out: &mut K) -> Result<Status, Fault>
    ensures ends { (w : Outside) (s : RulesSession) (recordings : List Recording) → Audits s recordings audit.now →
        EndsWith (telling_plan s recordings) (with_out w (K.stream out.old)) (with_out w (K.stream out.new))
        (code_of_run result) (said_by_run result) }
    ensures answers { IfOk result (λ status. IsTrue (is_audit_end status)) }
    ensures unprinted { audit_may_print (code_of_run result) ≡ false → K.stream out.new ≡ K.stream out.old }
{
    recorded_exchanges_are_one_list();
    let text = audit_text(alloc, audit)?;
    show_bytes(out, text.as_bytes())?;
    Ok(status_of(audit.unbalanced()))
}

/// The status of the program after it printed a balance.
fn status_of(unbalanced: Option<Exchange>) -> Status
    ensures code { code_of result ≡ status_of_balance unbalanced }
    ensures line { said_at result ≡ [] }
    ensures answers { IsTrue (is_audit_end result) }
{
    match unbalanced {
        Some(_) => Status::Unbalanced,
        None => Status::Done,
    }
}
