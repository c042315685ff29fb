//! The command `verify`.
ghost use Rattle.std.specs.Prelude.{◌≡◌, false, IfOk, IsTrue};
ghost use Rattle.bar_outside.specs.Disk.{Content};
ghost use Rattle.bar_outside.specs.Plan.{Outside, with_files, with_out};
ghost use Rattle.bar_outside.specs.Ends.{EndsWith};
ghost use Rattle.bar_outside.specs.Stages.{plan_by};
ghost use Rattle.bar_cli.specs.Verify.{proof_stages, verify_plan};
ghost use Rattle.bar_cli.specs.Printing.{judge_may_print};
ghost use Rattle.bar_cli.specs.Status.{code_of, code_of_run, is_proof_end, said_by_run};
ghost use Rattle.bar_cli.specs.Code.Views.{verify_view};

mod judging;
pub mod laws;
pub mod names;

use crate::judge::say_verdict;
use crate::status::Status;
use crate::verify::judging::judge_file;
use crate::verify::names::VerifyNames;
use bar_outside::{Fault, Files, Sink, read_file};
use bar_proof::ProofFault;
use bar_roster::{Session, SessionFault};
use bar_session_files::read_session;
use std::alloc::Global;

/// Reads the session and continues if it is accepted.
pub fn verify<F: Files, K: Sink>(
    alloc: Global,
    names: &VerifyNames<'_>,
    files: &mut F,
    out: &mut K,
) -> Result<Status, Fault>
    ensures ends { (w : Outside) (was : Content) → EndsWith (verify_plan (verify_view names.now))
        (with_out (with_files w (F.disk files.old was)) (K.stream out.old)) (with_out (with_files w (F.disk files.new was)) (K.stream out.new))
        (code_of_run result) (said_by_run result) }
    ensures answers { IfOk result (λ status. IsTrue (is_proof_end (code_of status))) }
    ensures unprinted { judge_may_print (code_of_run result) ≡ false → K.stream out.new ≡ K.stream out.old }
{
    let text = read_file(files, names.session)?;
    match read_session(alloc, &text) {
        Ok(session) => verify_session(alloc, &session, names, files, out),
        Err(SessionFault::NoMemory) => Err(Fault::NoMemory),
        Err(fault) => Ok(Status::SessionRefused(fault)),
    }
}

// Reads the proof file and prints its verdict if it is accepted.
fn verify_session<F: Files, K: Sink>(
    alloc: Global,
    session: &Session,
    names: &VerifyNames<'_>,
    files: &mut F,
    out: &mut K,
) -> Result<Status, Fault>
    ensures ends { (w : Outside) (was : Content) → EndsWith (plan_by (proof_stages (verify_view names.now) session.now))
        (with_out (with_files w (F.disk files.old was)) (K.stream out.old)) (with_out (with_files w (F.disk files.new was)) (K.stream out.new))
        (code_of_run result) (said_by_run result) }
    ensures answers { IfOk result (λ status. IsTrue (is_proof_end (code_of status))) }
    ensures unprinted { judge_may_print (code_of_run result) ≡ false → K.stream out.new ≡ K.stream out.old }
{
    let bytes = read_file(files, names.proof)?;
    match judge_file(alloc, session, &bytes) {
        Ok(verdict) => say_verdict(alloc, &verdict, out),
        Err(ProofFault::NoMemory) => Err(Fault::NoMemory),
        Err(fault) => Ok(Status::ProofRefused(fault)),
    }
}
