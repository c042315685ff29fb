//! The command `judge`.
ghost use Rattle.std.specs.Prelude.{◌≡◌, [], false, IfOk, IsTrue, string_bytes};
ghost use Rattle.bar_outside.specs.Disk.{Content};
ghost use Rattle.bar_outside.specs.Plan.{Outside, with_files, with_out};
ghost use Rattle.bar_outside.specs.Ends.{EndsWith};
ghost use Rattle.bar_outside.specs.Stages.{plan_by};
ghost use Rattle.bar_terms.specs.Table.{Lists, digests_of};
ghost use Rattle.bar_judge.specs.Code.Verdicts.{plain_verdict};
ghost use Rattle.bar_cli.specs.Judge.Plan.{evidence_stages, judge_plan, saying_plan, table_stages};
ghost use Rattle.bar_cli.specs.Judge.Judging.{status_of_verdict, verdict_line};
ghost use Rattle.bar_cli.specs.Printing.{judge_may_print};
ghost use Rattle.bar_cli.specs.Status.{code_of, code_of_run, said_at, said_by_run, is_judge_end};
ghost use Rattle.bar_cli.specs.Code.Views.{judge_view};

mod judging;
pub mod laws;
pub mod names;

use crate::judge::judging::{judge_evidence, read_lists};
use crate::judge::names::JudgeNames;
use crate::status::Status;
use bar_judge::{TableFault, Verdict};
use bar_outside::{Fault, Files, Sink, read_file, show_bytes};
use bar_proof::read_evidence;
use bar_roster::{Session, SessionFault};
use bar_session_files::read_session;
use bar_terms::Table;
use std::alloc::{AllocError, Global};

/// Reads the session and continues if it is accepted.
pub fn judge<F: Files, K: Sink>(
    alloc: Global,
    names: &JudgeNames<'_>,
    files: &mut F,
    out: &mut K,
) -> Result<Status, Fault>
    ensures ends { (w : Outside) (was : Content) → EndsWith (judge_plan (judge_view names.now))
        (with_out (with_files w (F.disk files.old was)) (K.stream out.old)) (with_out (with_files w (F.disk files.new was)) (K.stream out.new))
        (code_of_run result) (said_by_run result) }
    ensures answers { IfOk result (λ status. IsTrue (is_judge_end status)) }
    ensures unprinted { judge_may_print (code_of_run result) ≡ false → K.stream out.new ≡ K.stream out.old }
{
    let text = read_file(files, names.session)?;
    match read_session(alloc, &text) {
        Ok(session) => judge_session(alloc, &session, names, files, out),
        Err(SessionFault::NoMemory) => Err(Fault::NoMemory),
        Err(fault) => Ok(Status::SessionRefused(fault)),
    }
}

// Reads the table and continues if it is accepted.
fn judge_session<F: Files, K: Sink>(
    alloc: Global,
    session: &Session,
    names: &JudgeNames<'_>,
    files: &mut F,
    out: &mut K,
) -> Result<Status, Fault>
    ensures ends { (w : Outside) (was : Content) → EndsWith (plan_by (table_stages (judge_view names.now) session.now))
        (with_out (with_files w (F.disk files.old was)) (K.stream out.old)) (with_out (with_files w (F.disk files.new was)) (K.stream out.new))
        (code_of_run result) (said_by_run result) }
    ensures answers { IfOk result (λ status. IsTrue (is_judge_end status)) }
    ensures unprinted { judge_may_print (code_of_run result) ≡ false → K.stream out.new ≡ K.stream out.old }
{
    let bytes = read_file(files, names.table)?;
    match read_lists(alloc, &bytes, session) {
        Ok(table) => judge_table(alloc, session, &table, names, files, out),
        Err(TableFault::NoMemory) => Err(Fault::NoMemory),
        Err(TableFault::BadEntry { at }) => Ok(Status::TableRefused(at)),
    }
}

// Reads the evidence and continues if it is accepted.
fn judge_table<F: Files, K: Sink>(
    alloc: Global,
    session: &Session,
    table: &Table,
    names: &JudgeNames<'_>,
    files: &mut F,
    out: &mut K,
) -> Result<Status, Fault>
    ensures ends { (w : Outside) (was : Content) (lists : Lists) → digests_of table.now.lists ≡ digests_of lists →
        EndsWith (plan_by (evidence_stages (judge_view names.now) session.now lists))
        (with_out (with_files w (F.disk files.old was)) (K.stream out.old)) (with_out (with_files w (F.disk files.new was)) (K.stream out.new))
        (code_of_run result) (said_by_run result) }
    ensures answers { IfOk result (λ status. IsTrue (is_judge_end status)) }
    ensures unprinted { judge_may_print (code_of_run result) ≡ false → K.stream out.new ≡ K.stream out.old }
{
    let bytes = read_file(files, names.evidence)?;
    let Some(evidence) = read_evidence(&bytes) else {
        return Ok(Status::EvidenceRefused);
    };
    say_verdict(alloc, &judge_evidence(session, table, &evidence), out)
}

/// Prints the line of a verdict.
pub(crate) fn say_verdict<K: Sink>(
    alloc: Global,
    verdict: &Verdict,
    out: &mut K,
) -> Result<Status, Fault>
    ensures ends { (w : Outside) → EndsWith (saying_plan (plain_verdict verdict.now))
        (with_out w (K.stream out.old)) (with_out w (K.stream out.new)) (code_of_run result) (said_by_run result) }
    ensures answers { IfOk result (λ status. IsTrue (is_judge_end status)) }
    ensures code { IfOk result (λ status. code_of status ≡ status_of_verdict (plain_verdict verdict.now)) }
    ensures unprinted { judge_may_print (code_of_run result) ≡ false → K.stream out.new ≡ K.stream out.old }
{
    let line = line_of(alloc, verdict)?;
    show_bytes(out, line.as_bytes())?;
    Ok(status_of(verdict))
}

fn line_of(alloc: Global, verdict: &Verdict) -> Result<String, AllocError>
    ensures { IfOk result (λ line. string_bytes line ≡ verdict_line (plain_verdict verdict.now)) }
{
    format!(in alloc; "{verdict}\n")
}

// The status of the program after it printed a verdict.
fn status_of(verdict: &Verdict) -> Status
    ensures code { code_of result ≡ status_of_verdict (plain_verdict verdict.now) }
    ensures line { said_at result ≡ [] }
    ensures answers { IsTrue (is_judge_end result) }
{
    match verdict {
        Verdict::Shown { .. } => Status::Done,
        Verdict::NotShown(_) => Status::NoFault,
    }
}
