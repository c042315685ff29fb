//! Parsing of the command line.
ghost use Rattle.std.specs.Prelude.{◌≡◌, Some, None, Err, IfOk, map, string_bytes};
ghost use Rattle.bar_arguments.specs.declared.options.WordsFault.TheVariants.{Usage};
ghost use Rattle.bar_cli.specs.Line.{line_of};
ghost use Rattle.bar_cli.specs.Code.Views.{command_view};

mod audit;
mod broadcaster;
mod judge;
mod keygen;
mod name;
mod pack;
mod peer;
mod replay;
mod session;
mod simulate;
mod verify;

use crate::audit::names::AuditNames;
use crate::judge::names::JudgeNames;
use crate::keygen::words::KeygenWords;
use crate::pack::names::PackNames;
use crate::replay::names::ReplayNames;
use crate::verify::names::VerifyNames;
use bar_arguments::{WordsFault, option_values};
use bar_child_processes::SessionNames;
use bar_party_commands::{CasterNames, PeerNames};
use name::CommandName;
use std::alloc::Global;

/// A command with its arguments.
#[derive(Clone, Copy, Debug)]
pub enum Command<'a> {
    Peer(PeerNames<'a>),
    Broadcaster(CasterNames<'a>),
    Replay(ReplayNames<'a>),
    /// The key of a party, of one level or of two.
    Keygen(KeygenWords<'a>),
    Audit(AuditNames<'a>),
    Judge(JudgeNames<'a>),
    Pack(PackNames<'a>),
    Verify(VerifyNames<'a>),
    Session(SessionNames<'a>),
    /// The simulation of a seed.
    Simulate(u64),
}

/// The command that the arguments request, if they are a valid command line. The first argument names it.
///
/// # Errors
///
/// `Usage` if the arguments aren't a valid command line, and `NoMemory`.
pub fn command_of(alloc: Global, words: &[String]) -> Result<Command<'_>, WordsFault>
    ensures line { IfOk result (λ command. line_of (map string_bytes words.now) ≡ Some (command_view command)) }
    ensures usage { result ≡ Err Usage → line_of (map string_bytes words.now) ≡ None }
{
    let Some((word, rest)) = words.split_first() else {
        return Err(WordsFault::Usage);
    };
    let Some(name) = CommandName::read(word.as_str()) else {
        return Err(WordsFault::Usage);
    };
    let values = option_values(alloc, name.options(), rest)?;
    name.asked(&values).ok_or(WordsFault::Usage)
}
