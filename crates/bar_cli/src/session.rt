//! The command `session`.
ghost use Rattle.std.specs.Prelude.{◌≡◌, false, Some, IsTrue};
ghost use Rattle.bar_outside.specs.Disk.{Content};
ghost use Rattle.bar_outside.specs.Plan.{Outside, with_files, with_out};
ghost use Rattle.bar_child_processes.specs.Code.Views.{names_view};
ghost use Rattle.bar_cli.specs.Line.{is_status_of, session_run};
ghost use Rattle.bar_cli.specs.Printing.{session_may_print};
ghost use Rattle.bar_cli.specs.Session.{SessionEnds};
ghost use Rattle.bar_cli.specs.Status.{code_of_run, said_by_run};

pub mod laws;

use crate::status::Status;
use bar_child_processes::{SessionNames, run_children};
use bar_outside::{Fault, Files, Sink, Spawner, read_file};
use bar_roster::SessionFault;
use bar_session_files::read_session;
use std::alloc::Global;

/// Reads the session, and runs its children if it is accepted.
pub fn session<F: Files, K: Sink, S: Spawner>(
    alloc: Global,
    names: &SessionNames<'_>,
    files: &mut F,
    out: &mut K,
    spawn: &mut S,
) -> Result<Status, Fault>
    ensures ends { (w : Outside) (was : Content) → SessionEnds (names_view names.now)
        (with_out (with_files w (F.disk files.old was)) (K.stream out.old)) (with_out (with_files w (F.disk files.new was)) (K.stream out.new))
        (S.children spawn.old) (S.children spawn.new) (code_of_run result) (said_by_run result) }
    ensures statuses { IsTrue (is_status_of (Some (session_run (names_view names.now))) (code_of_run result)) }
    ensures unprinted { session_may_print (code_of_run result) ≡ false → K.stream out.new ≡ K.stream out.old }
{
    let text = read_file(files, names.session)?;
    match read_session(alloc, &text) {
        Ok(session) => {
            let peers = session.shape().peers;
            Ok(Status::from(run_children(alloc, names, peers, out, spawn)))
        }
        Err(SessionFault::NoMemory) => Err(Fault::NoMemory),
        Err(fault) => Ok(Status::SessionRefused(fault)),
    }
}
