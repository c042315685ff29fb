//! How a session ends.
ghost use Rattle.std.specs.Prelude.{◌≡◌};
ghost use Rattle.bar_child_processes.specs.Outcomes.{code_of, code_of_fault, joined};

use bar_outside::ChildFault;

/// How a session ends.
#[derive(Clone, Copy, Debug, PartialEq, Eq)]
pub enum Outcome {
    /// Each child ended with 0, which was printed.
    Done,
    /// A start or a wait was refused, or a child ended with another status.
    ChildFailed,
    /// A line was refused.
    OutputFailed,
    NoMemory,
}

impl Outcome {
    /// The first failure of two, except that running out of memory takes precedence.
    pub fn joined(self, later: Outcome) -> Outcome
        ensures { code_of result ≡ joined (code_of self) (code_of later) }
    {
        match (self, later) {
            (_, Outcome::NoMemory) => Outcome::NoMemory,
            (Outcome::Done, later) => later,
            (first, _) => first,
        }
    }
}

/// The outcome of a refused start or wait.
pub fn outcome_of(fault: ChildFault) -> Outcome
    ensures { code_of result ≡ code_of_fault fault }
{
    match fault {
        ChildFault::Failed => Outcome::ChildFailed,
        ChildFault::NoMemory => Outcome::NoMemory,
    }
}
