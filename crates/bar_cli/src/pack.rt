//! The command `pack`.
ghost use Rattle.std.specs.Prelude.{◌≡◌, false, IfOk, IsTrue, string_bytes};
ghost use Rattle.bar_outside.specs.Disk.{Content};
ghost use Rattle.bar_outside.specs.Plan.{Outside, with_files, with_out};
ghost use Rattle.bar_outside.specs.Ends.{EndsWith};
ghost use Rattle.bar_outside.specs.Stages.{plan_by};
ghost use Rattle.bar_rules.specs.Judge.Verdict.{NotShown};
ghost use Rattle.bar_cli.specs.Pack.{inputs_stages, pack_plan, packed_line, reading_stages};
ghost use Rattle.bar_cli.specs.Printing.{judge_may_print};
ghost use Rattle.bar_cli.specs.Status.{code_of, code_of_run, is_proof_end, said_by_run};
ghost use Rattle.bar_cli.specs.Code.Views.{packing_view};

pub mod laws;
pub mod names;
mod packing;

use crate::judge::say_verdict;
use crate::making::{Made, make_file};
use crate::pack::names::PackNames;
use crate::pack::packing::pack_evidence;
use crate::status::Status;
use bar_judge::Verdict;
use bar_outside::{Fault, Files, Sink, read_file};
use bar_proof::PackFault;
use bar_roster::{Session, SessionFault};
use bar_session_files::read_session;
use std::alloc::{AllocError, Global};

/// Reads the session and continues if it is accepted.
pub fn pack<F: Files, K: Sink>(
    alloc: Global,
    names: &PackNames<'_>,
    files: &mut F,
    out: &mut K,
) -> Result<Status, Fault>
    ensures ends { (w : Outside) (was : Content) → EndsWith (pack_plan (packing_view names.now))
        (with_out (with_files w (F.disk files.old was)) (K.stream out.old)) (with_out (with_files w (F.disk files.new was)) (K.stream out.new))
        (code_of_run result) (said_by_run result) }
    ensures answers { IfOk result (λ status. IsTrue (is_proof_end (code_of status))) }
    ensures unprinted { judge_may_print (code_of_run result) ≡ false → K.stream out.new ≡ K.stream out.old }
{
    let text = read_file(files, names.session)?;
    match read_session(alloc, &text) {
        Ok(session) => pack_session(alloc, &session, names, files, out),
        Err(SessionFault::NoMemory) => Err(Fault::NoMemory),
        Err(fault) => Ok(Status::SessionRefused(fault)),
    }
}

// Reads the table and the evidence, before either is accepted or refused.
fn pack_session<F: Files, K: Sink>(
    alloc: Global,
    session: &Session,
    names: &PackNames<'_>,
    files: &mut F,
    out: &mut K,
) -> Result<Status, Fault>
    ensures ends { (w : Outside) (was : Content) → EndsWith (plan_by (reading_stages (packing_view names.now) session.now))
        (with_out (with_files w (F.disk files.old was)) (K.stream out.old)) (with_out (with_files w (F.disk files.new was)) (K.stream out.new))
        (code_of_run result) (said_by_run result) }
    ensures answers { IfOk result (λ status. IsTrue (is_proof_end (code_of status))) }
    ensures unprinted { judge_may_print (code_of_run result) ≡ false → K.stream out.new ≡ K.stream out.old }
{
    let table = read_file(files, names.table)?;
    let evidence = read_file(files, names.evidence)?;
    pack_inputs(alloc, session, &table, &evidence, names, files, out)
}

// Packs the evidence of a file with the part of the table file that it needs, if both are accepted and a fault is shown.
fn pack_inputs<F: Files, K: Sink>(
    alloc: Global,
    session: &Session,
    table: &[u8],
    evidence: &[u8],
    names: &PackNames<'_>,
    files: &mut F,
    out: &mut K,
) -> Result<Status, Fault>
    ensures ends { (w : Outside) (was : Content) →
        EndsWith (plan_by (inputs_stages (packing_view names.now) session.now table.now evidence.now))
        (with_out (with_files w (F.disk files.old was)) (K.stream out.old)) (with_out (with_files w (F.disk files.new was)) (K.stream out.new))
        (code_of_run result) (said_by_run result) }
    ensures answers { IfOk result (λ status. IsTrue (is_proof_end (code_of status))) }
    ensures unprinted { judge_may_print (code_of_run result) ≡ false → K.stream out.new ≡ K.stream out.old }
{
    match pack_evidence(alloc, session, table, evidence) {
        Ok(file) => {
            make_file(&made_of(alloc, file)?, names.proof, files, out)?;
            Ok(Status::Done)
        }
        Err(PackFault::Table { at }) => Ok(Status::TableRefused(at)),
        Err(PackFault::Evidence) => Ok(Status::EvidenceRefused),
        Err(PackFault::NotShown(why)) => say_verdict(alloc, &Verdict::NotShown(why), out),
        Err(PackFault::NoMemory) => Err(Fault::NoMemory),
    }
}

// A proof file, and the line of its length.
fn made_of(alloc: Global, file: Vec<u8>) -> Result<Made, AllocError>
    ensures bytes { IfOk result (λ made. made.bytes.items ≡ file.items) }
    ensures lines { IfOk result (λ made. string_bytes made.lines ≡ packed_line file.items) }
{
    let len = file.len();
    let lines = format!(in alloc; "packed {len} bytes\n")?;
    Ok(Made { bytes: file, lines })
}
