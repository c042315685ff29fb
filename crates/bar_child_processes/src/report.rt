//! Waiting for children and printing their statuses.
ghost use Rattle.std.specs.Prelude.{◌≡◌, ◌∷◌, [], ℕ, Ok, IfOk, string_bytes, IsTrue};
ghost use Rattle.bar_outside.specs.Code.Children.{IsRunning};
ghost use Rattle.bar_child_processes.specs.Family.{shown_of, status_line};
ghost use Rattle.bar_child_processes.specs.Outcomes.{code_of, joined};
ghost use Rattle.bar_child_processes.specs.Sessions.{Reports, ShowsLines, ShowsStatus};
ghost use Rattle.bar_child_processes.specs.Code.Views.{report_view};

use crate::child::Child;
use crate::outcome::{Outcome, outcome_of};
use bar_outside::{Sink, SinkFault, Spawner};
use std::alloc::{AllocError, Global};

/// The report on the children so far: how the session ends, and whether lines are still printed. Lines are printed up to the first refused
/// one.
#[derive(Clone, Copy, Debug)]
pub struct Report {
    pub outcome: Outcome,
    pub prints: bool,
}

fn line_of(alloc: Global, party: u16, status: i32) -> Result<String, AllocError>
    ensures { IfOk result (λ line. string_bytes line ≡ status_line party status) }
{
    format!(in alloc; "party {party} status {status}\n")
}

// Prints the line of a child's status.
fn print_status<K: Sink>(
    alloc: Global,
    party: u16,
    status: i32,
    out: &mut K,
) -> Result<(), SinkFault>
    ensures { (number : ℕ) → ShowsLines
        (record { party = party; number = number; ended = Ok status; shown = shown_of result } ∷ []) (K.stream out.old) (K.stream out.new) }
{
    let Ok(line) = line_of(alloc, party, status) else {
        return Err(SinkFault::NoMemory);
    };
    out.write(line.as_bytes())
}

impl Report {
    // Adds an outcome.
    fn note(&mut self, later: Outcome)
        ensures { report_view self.new ≡
            record { code = joined (report_view self.old).code (code_of later); prints = (report_view self.old).prints } }
    {
        self.outcome = self.outcome.joined(later);
    }

    // Prints a child's status. A status other than 0 counts if it was printed.
    fn show<K: Sink>(&mut self, alloc: Global, party: u16, status: i32, out: &mut K)
        ensures { (number : ℕ) → IsTrue (report_view self.old).prints →
            ShowsStatus party number status (report_view self.old) (report_view self.new) (K.stream out.old) (K.stream out.new) }
    {
        match print_status(alloc, party, status, out) {
            Ok(()) => {
                if status != 0 {
                    self.note(Outcome::ChildFailed);
                }
            }
            Err(fault) => {
                self.prints = false;
                self.note(match fault {
                    SinkFault::Failed => Outcome::OutputFailed,
                    SinkFault::NoMemory => Outcome::NoMemory,
                });
            }
        }
    }

    /// Waits for a child, and prints its status if lines are still printed.
    pub fn wait_for<K: Sink, S: Spawner>(
        &mut self,
        alloc: Global,
        child: &Child,
        out: &mut K,
        spawn: &mut S,
    )
        requires { IsRunning child.now.number (S.children spawn.old).calls }
        ensures { Reports ((child.now.party, child.now.number) ∷ []) (report_view self.old) (report_view self.new)
            (K.stream out.old) (K.stream out.new) (S.children spawn.old) (S.children spawn.new) }
    {
        match spawn.wait(child.number) {
            Ok(status) => {
                if self.prints {
                    self.show(alloc, child.party, status, out);
                }
            }
            Err(fault) => self.note(outcome_of(fault)),
        }
    }
}
