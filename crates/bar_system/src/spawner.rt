//! The real child programs. They report what was started and waited for, and count their faults.
ghost use Rattle.std.specs.Prelude.{◌≡◌, [], length, true};
ghost use Rattle.bar_outside.specs.Code.OpenChildren.{are_below};
ghost use Rattle.bar_system.specs.History.{calls_of, children_by};

use bar_outside::{ChildFault, Spawner};
use bar_told::{Log, Note};
use std::io;
use std::io::ErrorKind;
use std::os::unix::process::ExitStatusExt;
use std::process::{Child, Command, ExitStatus, Processes, Stdio};

/// What is added to the number of the signal that ended a program.
const BY_SIGNAL: i32 = 128;

/// Child programs of the system. A child prints nothing on standard output, which is the parent's alone; standard error is shared.
#[derive(Drop)]
pub struct RealSpawner<'a, R: Processes> {
    rt: &'a R,
    children: Vec<Option<Child<R::Started>>>,
    log: Log,
    faults: u64,
    ghost below: { are_below (length children.items) (calls_of log.events) ≡ true },
}

// Starts the program that the first argument names.
fn start<R: Processes + AllocGlobal>(rt: &R, words: &[String]) -> io::Result<Child<R::Started>> {
    let Some((program, others)) = words.split_first() else {
        return Err(io::Error::from(ErrorKind::InvalidInput));
    };
    let mut command = Command::new(rt.alloc(), program.as_str())?;
    for word in others {
        command.arg(word.as_str())?;
    }
    command.stdout(Stdio::null());
    command.spawn(rt)
}

// Puts the child at this index.
fn put<R: Processes>(
    children: &mut Vec<Option<Child<R::Started>>>,
    number: usize,
    child: Child<R::Started>,
)
    ensures { length children.new.items ≡ length children.old.items }
{
    if let Some(place) = children.get_mut(number) {
        *place = Some(child);
    }
}

// The exit status of a program, or 128 plus the number of the signal that ended it.
fn code_of(status: ExitStatus) -> i32 {
    match status.code() {
        Some(code) => code,
        None => BY_SIGNAL.saturating_add(status.signal().unwrap_or(0)),
    }
}

// Waits for the child at this index, and empties the entry.
fn wait<R: Processes>(
    children: &mut Vec<Option<Child<R::Started>>>,
    child: usize,
) -> io::Result<i32>
    ensures { length children.new.items ≡ length children.old.items }
{
    match children.get_mut(child) {
        Some(place) => match place.take() {
            Some(mut child) => Ok(code_of(child.wait()?)),
            None => Err(io::Error::from(ErrorKind::NotFound)),
        },
        None => Err(io::Error::from(ErrorKind::NotFound)),
    }
}

impl<'a, R: Processes + AllocGlobal> RealSpawner<'a, R> {
    ghost use Rattle.std.specs.Prelude.{⊤, Err};
    ghost use Rattle.bar_outside.specs.Code.Causes.{HasCause};

    /// No child so far.
    pub fn new(rt: &'a R) -> Self
        ensures { children_by result.log.events result.faults ≡ children_by [] 0 }
    {
        RealSpawner {
            rt,
            children: Vec::new(rt.alloc()),
            log: Log::new(),
            faults: 0,
        }
    }

    // Counts a fault, unless memory ran out.
    fn fault(&mut self, error: &io::Error) -> ChildFault
        ensures cause { HasCause {T = ⊤} ChildFault.Failed self.old.faults self.new.faults (Err result) }
        ensures same { self.new.log.events ≡ self.old.log.events }
    {
        if error.kind() == ErrorKind::OutOfMemory {
            return ChildFault::NoMemory;
        }
        self.faults = self.faults.saturating_add(1);
        ChildFault::Failed
    }
}

impl<R: Processes + AllocGlobal> Spawner for RealSpawner<'_, R> {
    ghost children = { λ spawner. children_by spawner.log.events spawner.faults };

    fn start(&mut self, words: &[String]) -> Result<usize, ChildFault> {
        let number = self.children.len();
        // The entry is added first, so that every started program has one.
        if self.children.push(None).is_err() {
            return Err(ChildFault::NoMemory);
        }
        match start(self.rt, words) {
            Ok(child) => {
                put::<R>(&mut self.children, number, child);
                self.log = self.log.then(&Note::Started(words, number));
                Ok(number)
            }
            Err(error) => Err(self.fault(&error)),
        }
    }

    fn wait(&mut self, child: usize) -> Result<i32, ChildFault> {
        match wait::<R>(&mut self.children, child) {
            Ok(status) => {
                self.log = self.log.then(&Note::Waited(child, Some(status)));
                Ok(status)
            }
            Err(error) => {
                self.log = self.log.then(&Note::Waited(child, None));
                Err(self.fault(&error))
            }
        }
    }
}
