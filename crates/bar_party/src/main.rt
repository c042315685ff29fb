//! Commands of `bar` over another link, or with lies in what a peer sends: `bar_party LINK LIE WORDS ..`. WORDS are a command line of
//! `bar`, LINK is `udp` for the loopback network or `pipe` for a link over the standard streams, and LIE is `none` or the name of a lie.
//! `bar_party memory SESSION KEY STREAM RECORDING PARTY NUMBER ..` runs `peer` or `broadcaster` over files and a link in memory.
//! `bar_party fuzz SEED COUNT SESSION RECORDING EVIDENCE ..` gives changed datagrams to the parties of sessions in memory.
//! `bar` doesn't use it. tools/run-session and tools/simulate-session run it, and with `memory` tools/check-nodes, which compares the two
//! commands with expected values and their time with that of a replay, and tools/try-memory, which refuses memory to them. With `fuzz`
//! tools/fuzz-core runs it.
#![tactic(auto)]

mod fuzz;
mod lies;
mod memory;
mod pipe;

use bar_cli::bar_run;
use bar_hss::PartyKey;
use bar_outside::{Link, Sink};
use bar_roster::Session;
use bar_start::{hold_streams, read_file, words_of};
use bar_system::{RealFiles, RealLink, RealSink, RealSpawner, Standard};
use lies::{Liar, Lie, Lying};
use pipe::PipeLink;
use std::io::{BufReader, ErrorKind};
use std::process::ExitCode;
use std::{io, rt};

/// The exit status if the arguments or a file that they name aren't valid, or if the program can't start.
const WORDS: u8 = 2;

/// The argument after an option.
fn value_of<'a>(words: &'a [String], option: &str) -> io::Result<&'a str> {
    let mut is_next = false;
    for word in words {
        if is_next {
            return Ok(word.as_str());
        }
        is_next = word.as_str() == option;
    }
    Err(io::Error::from(ErrorKind::InvalidInput))
}

/// The liar for a peer's arguments, which signs with the peer's key.
fn liar_of<R: rt::Files + AllocGlobal>(rt: &R, lie: Lie, words: &[String]) -> io::Result<Liar> {
    let alloc = rt.alloc();
    let text = read_file(rt, value_of(words, "--session")?)?;
    let Ok(session) = Session::read(alloc, &text) else {
        return Err(io::Error::from(ErrorKind::InvalidData));
    };
    let text = read_file(rt, value_of(words, "--key")?)?;
    let Ok(key) = PartyKey::read(alloc, &text, &session, false, true) else {
        return Err(io::Error::from(ErrorKind::InvalidData));
    };
    Ok(Liar {
        lie,
        party: key.secrets.party,
        peers: session.shape().peers,
        scheme: key.scheme,
    })
}

/// Runs a command over a link, and returns its exit status.
fn run_over<L: Link + Drop>(rt: &HostRuntime, words: &[String], link: L, liar: Option<Liar>) -> u8 {
    let mut files = RealFiles::new(rt);
    let mut spawn = RealSpawner::new(rt);
    let mut out = RealSink::new(Standard::Out(rt.stdout()));
    let mut err = RealSink::new(Standard::Err(rt.stderr()));
    let mut link = Lying::new(rt.alloc(), link, liar);
    bar_run(
        rt.alloc(),
        words,
        &mut files,
        &mut link,
        &mut out,
        &mut err,
        &mut spawn,
    )
}

/// Runs a command over a link that the arguments name, maybe as a liar.
fn run_linked(rt: &HostRuntime, link: &str, words: &[String]) -> io::Result<u8> {
    let [lie, words @ ..] = words else {
        return Err(io::Error::from(ErrorKind::InvalidInput));
    };
    let liar = match lie.as_str() {
        "none" => None,
        named => match Lie::named(named) {
            Some(lie) => Some(liar_of(rt, lie, words)?),
            None => return Err(io::Error::from(ErrorKind::InvalidInput)),
        },
    };
    match link {
        "udp" => Ok(run_over(rt, words, RealLink::new(rt), liar)),
        "pipe" => {
            let input = BufReader::new(rt.alloc(), rt.stdin())?;
            let link = PipeLink::new(input, rt.stdout());
            Ok(run_over(rt, words, link, liar))
        }
        _ => Err(io::Error::from(ErrorKind::InvalidInput)),
    }
}

/// Runs what the arguments ask for.
fn run_words(rt: &HostRuntime, words: &[String]) -> io::Result<u8> {
    let [link, words @ ..] = words else {
        return Err(io::Error::from(ErrorKind::InvalidInput));
    };
    match link.as_str() {
        "memory" => {
            memory::run_and_show(rt, words, &mut rt.stdout())?;
            Ok(0)
        }
        "fuzz" => Ok(fuzz::run_and_tell(rt, words)),
        link => run_linked(rt, link, words),
    }
}

fn main(rt: HostRuntime) -> ExitCode {
    let held = hold_streams(&rt);
    let status = match words_of(&rt) {
        Ok(words) => run_words(&rt, &words),
        Err(error) => Err(error),
    };
    if let (Ok(status), Ok(_)) = (&status, &held) {
        return ExitCode::from(*status);
    }
    let mut err = RealSink::new(Standard::Err(rt.stderr()));
    let _ = err.write(b"bar_party: the words, or a file that they name, are refused\n");
    ExitCode::from(WORDS)
}
