//! The program: the commands over the real files, the loopback network, child programs and the standard streams.
#![tactic(auto)]

ghost use Rattle.std.specs.Prelude.{◌≡◌, ◌⊎◌, IfOk, IfErr, map, string_bytes};
ghost use Rattle.bar_outside.specs.Disk.{Content};
ghost use Rattle.bar_outside.specs.Plan.{outside};
ghost use Rattle.bar_cli.specs.Line.{line_of};
ghost use Rattle.bar_cli.specs.Ran.{WasDone, ByTheRules, WasSaid};
ghost use Rattle.bar.specs.Words.{NothingHappened};

use bar_cli::bar_run;
use bar_outside::{Files, Link, Sink, Spawner};
use bar_start::{hold_streams, words_of};
use bar_system::{RealFiles, RealLink, RealSink, RealSpawner, Standard};
use std::alloc::Global;
use std::io;
use std::io::ErrorKind;
use std::process::ExitCode;

/// The exit status if a file fails.
const FILE_FAILED: u8 = 3;

/// The exit status if memory runs out.
const NO_MEMORY: u8 = 70;

// Runs the command that the arguments name, and returns the exit status.
fn run_words<F: Files, L: Link, K: Sink, S: Spawner>(
    alloc: Global,
    words: io::Result<Vec<String>>,
    files: &mut F,
    link: &mut L,
    out: &mut K,
    err: &mut K,
    spawn: &mut S,
) -> u8
    // what was done of what the arguments ask for
    ensures done { (was : Content) → IfOk words (λ given. WasDone (line_of (map string_bytes given.items))
        (outside (F.disk files.old was) (K.stream out.old) (L.wire link.old))
        (outside (F.disk files.new was) (K.stream out.new) (L.wire link.new)) (S.children spawn.old) (S.children spawn.new) result) }

    // what holds by the rules over the inputs of this run
    ensures ruled { (was : Content) → IfOk words (λ given. ByTheRules (line_of (map string_bytes given.items))
        (outside (F.disk files.old was) (K.stream out.old) (L.wire link.old))
        (outside (F.disk files.new was) (K.stream out.new) (L.wire link.new)) result) }

    // what was written to standard error
    ensures said { (was : Content) → IfOk words (λ given. WasSaid (line_of (map string_bytes given.items)) (F.disk files.old was)
        (F.disk files.new was) (K.stream err.old) (K.stream err.new) result) }

    // arguments that aren't text are not a valid command line
    ensures no_text { IfErr words (λ _. (result ≡ 2) ⊎ (result ≡ 70)) }
    ensures untouched { (was : Content) → IfErr words (λ _. NothingHappened
        (outside (F.disk files.old was) (K.stream out.old) (L.wire link.old))
        (outside (F.disk files.new was) (K.stream out.new) (L.wire link.new)) (S.children spawn.old) (S.children spawn.new)) }
{
    let words = match words {
        Ok(words) => words,
        Err(error) => {
            if error.kind() == ErrorKind::OutOfMemory {
                let _ = err.write(b"bar: no memory\n");
                return NO_MEMORY;
            }
            // Arguments that aren't text are not a valid command line. An empty list isn't one either.
            Vec::new(alloc)
        }
    };
    bar_run(alloc, &words, files, link, out, err, spawn)
}

fn main(rt: HostRuntime) -> ExitCode {
    let held = hold_streams(&rt);
    let mut files = RealFiles::new(&rt);
    let mut link = RealLink::new(&rt);
    let mut spawn = RealSpawner::new(&rt);
    let mut out = RealSink::new(Standard::Out(rt.stdout()));
    let mut err = RealSink::new(Standard::Err(rt.stderr()));
    if held.is_err() {
        let _ = err.write(b"bar: file failed\n");
        return ExitCode::from(FILE_FAILED);
    }
    let words = words_of(&rt);
    let alloc = rt.alloc();
    ExitCode::from(run_words(
        alloc, words, &mut files, &mut link, &mut out, &mut err, &mut spawn,
    ))
}
