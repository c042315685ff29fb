//! A run of `peer` or `broadcaster` over files and a link in memory. The link gives the inputs of a recording, and those of its calls whose
//! numbers are given fail. What is printed tells the command's exit status, its errors and its output, whether the link was bound, each
//! datagram that was sent, and each file. After the command no memory is allocated.
ghost use Rattle.std.specs.Prelude.{◌≡◌};
ghost use Rattle.bar_outside.specs.Code.MemTaken as small;

use bar_cli::bar_run;
use bar_outside::{LARGEST_PACKET, MemFiles, MemLink, MemSink, MemSpawner, MemTaken};
use bar_roster::Session;
use bar_start::read_file;
use bar_wire::Input;
use std::alloc::{AllocError, Global};
use std::io::{ErrorKind, Write};
use std::{io, rt};

/// The inputs of a link that replays a recording.
fn taken(alloc: Global, inputs: bar_record::Items<'_>) -> Result<Vec<MemTaken>, AllocError> {
    let mut list = Vec::new(alloc);
    for input in inputs {
        list.push(match input {
            Input::Tick => MemTaken::Tick,
            Input::Datagram(bytes) => MemTaken::Datagram(bytes.to_vec(alloc)?),
        })?;
    }
    Ok(list)
}

/// Whether an item is no longer than a datagram can be.
fn is_small(item: &MemTaken) -> bool
    ensures { result ≡ small.is_small item.now }
{
    match item {
        MemTaken::Tick => true,
        MemTaken::Datagram(bytes) => bytes.len() <= LARGEST_PACKET,
    }
}

/// Whether every item is small.
fn are_small(list: &[MemTaken]) -> bool
    ensures { result ≡ small.are_small list.now }
{
    list.iter().all(|item| is_small(item))
}

/// The error for arguments that can't be used.
fn refused() -> io::Error {
    io::Error::from(ErrorKind::InvalidInput)
}

/// The numbers of the calls of the link that are to fail.
fn numbers_of(alloc: Global, words: &[String]) -> io::Result<Vec<u64>> {
    let mut numbers = Vec::new(alloc);
    for word in words {
        let Ok(number) = word.parse::<u64>() else {
            return Err(refused());
        };
        numbers.push(number)?;
    }
    Ok(numbers)
}

/// The link that gives the inputs of a party's recording, and whose calls with these numbers fail.
fn link_of(
    alloc: Global,
    session: &[u8],
    party: u16,
    recording: &[u8],
    fail: Vec<u64>,
) -> io::Result<MemLink> {
    let Ok(session) = Session::read(alloc, session) else {
        return Err(refused());
    };
    let shape = session.shape();
    let last = 8 * (shape.rounds + u32::from(shape.life) + 1);
    let Ok(inputs) = bar_record::read(recording, &shape.id, party, last) else {
        return Err(refused());
    };
    let list = taken(alloc, inputs)?;
    if !are_small(&list) {
        return Err(refused());
    }
    Ok(MemLink::make(alloc, list, fail))
}

/// The arguments of a command over files in memory.
fn command_of(alloc: Global, party: u16) -> Result<Vec<String>, AllocError> {
    let line = if party == 0 {
        "broadcaster --session s --key k --begin 0 --stream t --found f"
    } else {
        "peer --session s --key k --begin 0 --played p --recording r --found f"
    };
    let mut words = Vec::new(alloc);
    for word in line.split(' ') {
        words.push(String::from_str(alloc, word)?)?;
    }
    Ok(words)
}

/// How many bytes are printed at once.
const PART: usize = 2_048;

/// Prints bytes in hex, and a newline. It allocates no memory.
fn show_hex(bytes: &[u8], out: &mut impl Write) -> io::Result<()> {
    let mut room = [0u8; 2 * PART];
    for part in bytes.chunks(PART) {
        let Some(digits) = room.get_mut(..2 * part.len()) else {
            continue;
        };
        let _ = hex::encode_to_slice(part, digits);
        out.write_all(digits)?;
    }
    out.write_all(b"\n")
}

/// Prints a file in hex, if it is there.
fn show_file(files: &MemFiles, name: &str, out: &mut impl Write) -> io::Result<()> {
    let Some(bytes) = files.get(name) else {
        return Ok(());
    };
    write!(out, "file {name} ")?;
    show_hex(bytes, out)
}

/// Prints whether the link was bound, and each datagram that was sent, with its receiver.
fn show_link(link: &MemLink, out: &mut impl Write) -> io::Result<()> {
    if let Some(place) = link.place() {
        let me = place.me;
        writeln!(out, "bound {me}")?;
    }
    for sent in link.sent() {
        let to = sent.to;
        write!(out, "sent {to} ")?;
        show_hex(&sent.bytes, out)?;
    }
    Ok(())
}

/// The names of the files that may exist.
const NAMES: [&str; 11] = [
    "s", "k", "t", "p", "r", "f.table", "f.1", "f.2", "f.3", "f.4", "f.5",
];

/// What the program's arguments ask for.
#[derive(Drop)]
struct Request<'a> {
    session: &'a str,
    key: &'a str,
    stream: &'a str,
    recording: &'a str,
    party: u16,
    fail: Vec<u64>,
}

/// Parses these arguments.
fn request_of(alloc: Global, words: &[String]) -> io::Result<Request<'_>> {
    let [session, key, stream, recording, party, fail @ ..] = words else {
        return Err(refused());
    };
    let Ok(party) = party.parse::<u16>() else {
        return Err(refused());
    };
    Ok(Request {
        session: session.as_str(),
        key: key.as_str(),
        stream: stream.as_str(),
        recording: recording.as_str(),
        party,
        fail: numbers_of(alloc, fail)?,
    })
}

/// The results of a command in memory.
#[derive(Drop)]
struct Left {
    status: u8,
    said: MemSink,
    printed: MemSink,
    link: MemLink,
    files: MemFiles,
}

/// Runs the command of a party over its files and link.
fn run(
    alloc: Global,
    party: u16,
    mut files: MemFiles,
    mut link: MemLink,
) -> Result<Left, AllocError> {
    let mut printed = MemSink::make(alloc, Vec::new(alloc));
    let mut said = MemSink::make(alloc, Vec::new(alloc));
    let mut spawn = MemSpawner::make(alloc, Vec::new(alloc), Vec::new(alloc));
    let command = command_of(alloc, party)?;
    let status = bar_run(
        alloc,
        &command,
        &mut files,
        &mut link,
        &mut printed,
        &mut said,
        &mut spawn,
    );
    Ok(Left {
        status,
        said,
        printed,
        link,
        files,
    })
}

/// Prints the results of a command.
fn show(left: &Left, out: &mut impl Write) -> io::Result<()> {
    let status = left.status;
    writeln!(out, "status {status}")?;
    out.write_all(left.said.bytes())?;
    out.write_all(left.printed.bytes())?;
    show_link(&left.link, out)?;
    for name in NAMES {
        show_file(&left.files, name, out)?;
    }
    Ok(())
}

/// Runs what the arguments ask for: `SESSION KEY STREAM RECORDING PARTY NUMBER ..`.
pub fn run_and_show<R: rt::Files + AllocGlobal>(
    rt: &R,
    words: &[String],
    out: &mut impl Write,
) -> io::Result<()> {
    let alloc = rt.alloc();
    let request = request_of(alloc, words)?;
    let mut files = MemFiles::make(alloc, Vec::new(alloc));
    let session = read_file(rt, request.session)?;
    files.put("s", &session)?;
    files.put("k", &read_file(rt, request.key)?)?;
    files.put("t", &read_file(rt, request.stream)?)?;
    let recording = read_file(rt, request.recording)?;
    let link = link_of(alloc, &session, request.party, &recording, request.fail)?;
    let left = run(alloc, request.party, files, link)?;
    show(&left, out)
}
