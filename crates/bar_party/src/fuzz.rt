//! Gives changed datagrams to the parties of sessions in memory, and changed files and texts to the calls that read them, and prints counts
//! of the results. Accepted input must encode to the same bytes again. If it doesn't, or if a party doesn't answer, the run ends with a
//! message and status 1. A seed determines all random choices.

mod changes;
mod counting;
mod courses;
mod drawing;
mod parties;
mod reading;
mod sessions;
mod spelling;
mod stop;
mod texts;
mod trying;

use bar_roster::Session;
use bar_start::read_file;
use bar_wire::{Input, split_evidence};
use counting::{Readers, Tally, Trials};
use courses::{Work, run_course};
use drawing::Draw;
use parties::{key_data, room, session_of};
use sessions::small_text;
use std::alloc::Global;
use std::io::Write;
use std::{io, rt};
use stop::Stop;
use texts::text_of;
use trying::{Texts, try_all};

/// Adds the datagrams of a recording of party 1 of a session.
fn add_recorded(
    alloc: Global,
    session: &Session,
    recording: &[u8],
    others: &mut Vec<Vec<u8>>,
) -> Result<(), Stop> {
    let shape = session.shape();
    let last = 8 * (shape.rounds + u32::from(shape.life) + 1);
    let Ok(inputs) = bar_record::read(recording, &shape.id, 1, last) else {
        return Err(Stop::Found("the recording is refused"));
    };
    for input in inputs {
        if let Input::Datagram(bytes) = input {
            others.push(bytes.to_vec(alloc)?)?;
        }
    }
    Ok(())
}

/// Adds the datagrams of a piece of evidence.
fn add_evidence(alloc: Global, evidence: &[u8], others: &mut Vec<Vec<u8>>) -> Result<(), Stop> {
    let Ok(view) = split_evidence(evidence) else {
        return Err(Stop::Found("the evidence is refused"));
    };
    others.push(view.one.to_vec(alloc)?)?;
    if let Some(two) = view.two {
        others.push(two.to_vec(alloc)?)?;
    }
    Ok(())
}

/// The datagrams of other sessions: those of a recording and of evidence.
fn others_of<R: rt::Files + AllocGlobal>(
    rt: &R,
    session: &str,
    recording: &str,
    evidence: &[String],
) -> Result<Vec<Vec<u8>>, Stop> {
    let alloc = rt.alloc();
    let mut others = Vec::new(alloc);
    let Ok(session) = Session::read(alloc, &read_file(rt, session)?) else {
        return Err(Stop::Found("the session is refused"));
    };
    add_recorded(alloc, &session, &read_file(rt, recording)?, &mut others)?;
    for path in evidence {
        add_evidence(alloc, &read_file(rt, path)?, &mut others)?;
    }
    Ok(others)
}

/// The texts of the sessions that are run, of both versions and of keys of one level and of two.
fn texts_of(alloc: Global) -> Result<Texts, Stop> {
    let mut sessions = Vec::new(alloc);
    for (version, has_two_levels) in [(1, false), (2, false), (1, true), (2, true)] {
        sessions.push(text_of(alloc, version, has_two_levels)?)?;
    }
    let small = small_text(alloc)?;
    let key = key_data(&session_of(alloc, small.as_str())?, 1).text(alloc)?;
    Ok(Texts {
        sessions,
        small,
        key,
    })
}

/// About how many datagrams one of these sessions delivers.
const DELIVERED: u64 = 200;

/// The most changed datagrams before one that is delivered.
const LONGEST_BURST: u64 = 2_500;

/// How many changed datagrams there are for each changed file or text.
const ONE_TEXT_IN: u64 = 10;

/// Runs sessions of each kind in turn until this many changed datagrams were taken. After each session its share of files and texts is
/// tried. In every other group of four sessions some of the datagrams are signed again.
fn run_all(
    alloc: Global,
    work: &mut Work,
    texts: &Texts,
    readers: &mut Readers,
    count: u64,
) -> Result<u64, Stop> {
    let burst = (count / (8 * DELIVERED)).min(LONGEST_BURST) as usize + 1;
    for number in 0..count {
        if work.tally.tried >= count {
            return Ok(number);
        }
        let before = work.tally.tried;
        let place = (number % 8) as usize;
        let Some(text) = texts.sessions.get(place % 4) else {
            return Err(Stop::Found("a session is missing"));
        };
        let course = run_course(alloc, work, text, burst, place < 4)?;
        let files = work.tally.tried.saturating_sub(before) / ONE_TEXT_IN + 1;
        try_all(alloc, work, &course, texts, text, readers, files as usize)?;
    }
    Ok(count)
}

/// Prints the results of changed datagrams.
fn show_tally(alloc: Global, tally: &Tally, out: &mut impl Write) -> io::Result<()> {
    let [short, magic, version, kind, session, length, field] = tally.faults;
    let faults = format!(in alloc;
        "Short {short} BadMagic {magic} BadVersion {version} BadKind {kind} BadSession {session} BadLength {length} BadField {field}"
    )?;
    let (tried, read, checkable) = (tally.tried, tally.read, tally.checkable);
    let (signed, answered, sent, shown) = (tally.signed, tally.answered, tally.sent, tally.shown);
    let counts = format!(in alloc;
        "read {read} checkable {checkable} signed {signed} answered {answered} sent {sent} shown {shown}"
    )?;
    let line = format!(in alloc; "datagrams tried {tried} {faults} {counts}\n")?;
    out.write_all(line.as_bytes())
}

/// Prints the results of the changed bytes of a call.
fn show_trials(alloc: Global, name: &str, trials: &Trials, out: &mut impl Write) -> io::Result<()> {
    let (tried, costly, accepted) = (trials.tried, trials.costly, trials.accepted);
    let line = format!(in alloc; "{name} tried {tried} costly {costly} accepted {accepted}\n")?;
    out.write_all(line.as_bytes())
}

fn show_readers(alloc: Global, readers: &Readers, out: &mut impl Write) -> io::Result<()> {
    show_trials(alloc, "evidence", &readers.evidence, out)?;
    show_trials(alloc, "verdict", &readers.verdict, out)?;
    show_trials(alloc, "table", &readers.table, out)?;
    show_trials(alloc, "recording", &readers.recording, out)?;
    show_trials(alloc, "session", &readers.session, out)?;
    show_trials(alloc, "key", &readers.key, out)
}

/// The state that all sessions share, with datagrams of other sessions.
fn work_of<R: rt::Files + AllocGlobal>(
    rt: &R,
    seed: u64,
    session: &str,
    recording: &str,
    evidence: &[String],
) -> Result<Work, Stop> {
    let alloc = rt.alloc();
    let others = others_of(rt, session, recording, evidence)?;
    let buf = room(alloc)?;
    Ok(Work {
        draw: Draw::of_seed(seed),
        tally: Tally::new(),
        made: Vec::new(alloc),
        buf,
        others,
    })
}

/// Runs all sessions, and prints the results.
fn run_and_show(
    alloc: Global,
    work: &mut Work,
    count: u64,
    out: &mut impl Write,
) -> Result<(), Stop> {
    let texts = texts_of(alloc)?;
    let mut readers = Readers::new();
    let sessions = run_all(alloc, work, &texts, &mut readers, count)?;
    writeln!(out, "sessions {sessions}")?;
    show_tally(alloc, &work.tally, out)?;
    show_readers(alloc, &readers, out)?;
    Ok(())
}

/// Runs what the arguments ask for.
fn run_words<R: rt::Files + AllocGlobal>(
    rt: &R,
    words: &[String],
    out: &mut impl Write,
) -> Result<(), Stop> {
    let [seed, count, session, recording, evidence @ ..] = words else {
        return Err(Stop::Found("usage: SEED COUNT SESSION RECORDING EVIDENCE .."));
    };
    let (Ok(seed), Ok(count)) = (seed.parse::<u64>(), count.parse::<u64>()) else {
        return Err(Stop::Found("a seed or a count is no number"));
    };
    let mut work = work_of(rt, seed, session, recording, evidence)?;
    run_and_show(rt.alloc(), &mut work, count, out)
}

/// The exit status if the run stops early.
const STOPPED: u8 = 1;

/// Runs what the arguments ask for, and returns the exit status. If the run stops early, it says why.
pub fn run_and_tell(rt: &HostRuntime, words: &[String]) -> u8 {
    let Err(stop) = run_words(rt, words, &mut rt.stdout()) else {
        return 0;
    };
    let _ = writeln!(rt.stderr(), "bar_party: {stop}");
    STOPPED
}
