//! The files and streams of the system. They report what was read and written, and count their faults.
ghost use Rattle.std.specs.Prelude.{◌≡◌, ◌≤◌, ◌<◌, [], ◌∷◌, length, take, slice_get, string_bytes, All, IfNone, IfSome, IsSomeAnd, IsTrue, OnErr, OnOk};
ghost use Rattle.std.specs.Io.KnownBytes.{Appends as GetsBytes};
ghost use Rattle.bar_outside.specs.Disk.{Content, CreatedFiles};
ghost use Rattle.bar_system.specs.History.{disk_by, made_of, stream_by};
ghost use Rattle.bar_system.specs.RealFiles.{AddsTo, GotPiece};
ghost use Rattle.bar_system.specs.Refusal.{IsRefusal};

use crate::held::{HeldFile, Lockable, Mark, mark_of, open_held};
use bar_outside::{FileFault, Files, LARGEST_FILE, Sink, SinkFault};
use bar_told::{Log, Note};
use std::fs::OpenFile;
use std::io::{ErrorKind, Read, Stderr, Stdout, Write};
use std::{fs, io, rt};

/// A created file, kept open and locked for appends.
#[derive(Drop)]
pub struct CreatedFile<F> {
    path: String,
    held: HeldFile<F>,
}

/// A file that was read, and its mark at that time.
#[derive(Drop)]
pub struct SeenFile {
    path: String,
    mark: Mark,
}

/// Files of the system. They report what was read and written. A created file is locked until the end and accessible to its owner alone. If
/// another run has locked a file, `create` fails. If a file is created after it was read, it must be unchanged since then. The new bytes
/// are written to a file whose name has `.new` added. This file replaces the old one at the first successful append; until then others see
/// the old file. A key is overwritten only by the same key.
#[derive(Drop)]
pub struct RealFiles<'a, R: rt::Files> {
    rt: &'a R,
    created: Vec<CreatedFile<R::File>>,
    seen: Vec<SeenFile>,
    log: Log,
    faults: u64,
    ghost here: { All (λ f. IsTrue (made_of log.events (string_bytes f.path))) created.items },
}

impl<'a, R: rt::Files + AllocGlobal> RealFiles<'a, R> {
    ghost use Rattle.std.specs.Prelude.{⊤, Err};
    ghost use Rattle.bar_outside.specs.Code.Causes.{HasCause};
    ghost use Rattle.bar_told.specs.Noted.{event_of};

    /// The files that this runtime reaches. None has been created so far.
    pub fn new(rt: &'a R) -> Self
        ensures { (was : Content) → disk_by result.log.events result.faults was ≡ disk_by [] 0 was }
    {
        RealFiles {
            rt,
            created: Vec::new(rt.alloc()),
            seen: Vec::new(rt.alloc()),
            log: Log::new(),
            faults: 0,
        }
    }

    // Counts and notes a fault, unless memory ran out.
    fn fault(&mut self, error: &io::Error, note: &Note<'_>) -> FileFault
        requires { IsRefusal (event_of note.now) }
        ensures cause { HasCause {T = ⊤} FileFault.Failed self.old.faults self.new.faults (Err result) }
        ensures noted { result ≡ FileFault.Failed → self.new.log.events ≡ event_of note.now ∷ self.old.log.events }
        ensures unnoted { result ≡ FileFault.NoMemory → self.new.log.events ≡ self.old.log.events }
        ensures same { self.new.created.items ≡ self.old.created.items }
    {
        if error.kind() == ErrorKind::OutOfMemory {
            return FileFault::NoMemory;
        }
        self.log = self.log.then(note);
        self.faults = self.faults.saturating_add(1);
        FileFault::Failed
    }
}

// Reads all the bytes of a file, and its mark before the read. A file that is too large is an error.
fn read_file<R: rt::Files + AllocGlobal>(rt: &R, path: &str) -> io::Result<(Vec<u8>, Mark)> {
    let mut bytes = Vec::new(rt.alloc());
    let file = fs::open(rt, path)?;
    let mark = mark_of(&file)?;
    file.take(LARGEST_FILE as u64 + 1).read_to_end(&mut bytes)?;
    if bytes.len() > LARGEST_FILE {
        return Err(io::Error::from(ErrorKind::FileTooLarge));
    }
    Ok((bytes, mark))
}

// Reads all the bytes of a file and notes its mark. A file created in this run is read under the name that holds its bytes.
fn read_seen<R: rt::Files + AllocGlobal>(
    rt: &R,
    created: &[CreatedFile<R::File>],
    seen: &mut Vec<SeenFile>,
    path: &str,
) -> io::Result<Vec<u8>> {
    if let Some(place) = place_of(created, path) {
        return Ok(read_file(rt, created[place].held.name(path))?.0);
    }
    let name = String::from_str(rt.alloc(), path)?;
    let (bytes, mark) = read_file(rt, path)?;
    if seen.push(SeenFile { path: name, mark }).is_err() {
        return Err(io::Error::from(ErrorKind::OutOfMemory));
    }
    Ok(bytes)
}

// The mark of a file when it was last read.
fn mark_seen(seen: &[SeenFile], path: &str) -> Option<Mark> {
    let mut last = None;
    for file in seen {
        if file.path.as_str() == path {
            last = Some(file.mark);
        }
    }
    last
}

// Creates an empty file of this name, and keeps it open.
fn create_file<R: rt::Files<File: Lockable> + AllocGlobal>(
    rt: &R,
    created: &mut Vec<CreatedFile<R::File>>,
    seen: &[SeenFile],
    path: &str,
) -> io::Result<()>
    ensures made { (here : CreatedFiles) → All (λ f. IsTrue (here (string_bytes f.path))) created.old.items → IsTrue (here path.now) →
        All (λ f. IsTrue (here (string_bytes f.path))) created.new.items }
    ensures same { OnErr result (created.new.items ≡ created.old.items) }
{
    if let Some(place) = place_of(created, path) {
        return created[place].held.empty_again(rt, path);
    }
    let name = String::from_str(rt.alloc(), path)?;
    // Memory for the entry is reserved first, so that every created file gets one.
    created.reserve(1)?;
    let held = open_held(rt, path, mark_seen(seen, path))?;
    if created.push(CreatedFile { path: name, held }).is_err() {
        return Err(io::Error::from(ErrorKind::OutOfMemory));
    }
    Ok(())
}

// The index of the file of this name that was created last.
fn place_of<F>(created: &[CreatedFile<F>], path: &str) -> Option<usize>
    ensures within { IfSome result (λ place. place < length created.now) }
    ensures named { IfSome result (λ place. IsSomeAnd (slice_get created.now place) (λ f. string_bytes f.path ≡ path.now)) }
{
    for back in 0..created.len() {
        let place = created.len() - 1 - back;
        if created[place].path.as_str() == path {
            return Some(place);
        }
    }
    None
}

// Appends the bytes to an open file, which then replaces the old one, if any. Returns how many bytes it took.
fn add_bytes<R: rt::Files + AllocGlobal, F: Write + OpenFile>(
    rt: &R,
    held: &mut HeldFile<F>,
    bytes: &[u8],
) -> (usize, io::Result<()>)
    ensures few { result.0 ≤ length bytes.now }
    ensures all { OnOk result.1 (result.0 ≡ length bytes.now) }
    // if the file reports its contents, exactly these bytes were appended, even if it can't replace the old file
    ensures exact { GetsBytes (F.contents held.old.file) (F.contents held.new.file) (take result.0 bytes.now) }
{
    let (took, written) = write_bytes(&mut held.file, bytes);
    if let Err(error) = written {
        return (took, Err(error));
    }
    (took, held.place(rt))
}

// Appends the bytes to a created file, which then replaces the old one, if any. Returns how many bytes it took, or `None` if no file of
// this name was created.
fn append_file<R: rt::Files + AllocGlobal>(
    rt: &R,
    created: &mut Vec<CreatedFile<R::File>>,
    path: &str,
    bytes: &[u8],
) -> Option<(usize, io::Result<()>)>
    ensures few { IfSome result (λ r. r.0 ≤ length bytes.now) }
    ensures all { IfSome result (λ r. OnOk r.1 (r.0 ≡ length bytes.now)) }
    ensures here { (here : CreatedFiles) → All (λ f. IsTrue (here (string_bytes f.path))) created.old.items →
        IfSome result (λ _. IsTrue (here path.now)) }
    ensures kept { (here : CreatedFiles) → All (λ f. IsTrue (here (string_bytes f.path))) created.old.items →
        All (λ f. IsTrue (here (string_bytes f.path))) created.new.items }
    // if the file reports its contents, exactly these bytes were appended
    ensures exact { IfSome result (λ r. GotPiece R.File.contents path.now (take r.0 bytes.now) created.old.items created.new.items) }
    ensures none { IfNone result (created.new.items ≡ created.old.items) }
{
    let place = place_of(created, path)?;
    let other = created.get_mut(place)?;
    Some(add_bytes(rt, &mut other.held, bytes))
}

impl<R: rt::Files<File: Lockable> + AllocGlobal> Files for RealFiles<'_, R> {
    ghost use Rattle.bar_outside.specs.Disk.{Appends};

    ghost disk = { λ files was. disk_by files.log.events files.faults was };

    fn read(&mut self, path: &str) -> Result<Vec<u8>, FileFault> {
        match read_seen(self.rt, &self.created, &mut self.seen, path) {
            Ok(bytes) => {
                self.log = self.log.then(&Note::Read(path, &bytes));
                Ok(bytes)
            }
            Err(error) => Err(self.fault(&error, &Note::Unread(path))),
        }
    }

    fn create(&mut self, path: &str) -> Result<(), FileFault> {
        match create_file(self.rt, &mut self.created, &self.seen, path) {
            Ok(()) => {
                self.log = self.log.then(&Note::Made(path));
                Ok(())
            }
            Err(error) => Err(self.fault(&error, &Note::Unmade(path))),
        }
    }

    fn append(&mut self, path: &str, bytes: &[u8]) -> Result<(), FileFault>
        ensures appends { (was : Content) → Appends path.now bytes.now (disk_by self.old.log.events self.old.faults was)
            (disk_by self.new.log.events self.new.faults was) result }
        // if a file reports its contents, the history says what was appended to it
        ensures hands_on { AddsTo R.File.contents path.now self.old.created.items self.new.created.items
            self.old.log.events self.new.log.events }
    {
        match append_file(self.rt, &mut self.created, path, bytes) {
            Some((took, written)) => {
                self.log = self.log.then(&Note::Added(path, &bytes[..took]));
                match written {
                    Ok(()) => Ok(()),
                    Err(error) => Err(self.fault(&error, &Note::Unadded(path))),
                }
            }
            None => {
                let error = io::Error::from(ErrorKind::NotFound);
                Err(self.fault(&error, &Note::Unadded(path)))
            }
        }
    }
}

/// A standard stream.
#[derive(Drop)]
pub enum Standard {
    Out(Stdout),
    Err(Stderr),
}

impl Write for Standard {
    fn write(&mut self, buf: &[u8]) -> io::Result<usize> {
        match self {
            Standard::Out(out) => out.write(buf),
            Standard::Err(err) => err.write(buf),
        }
    }

    fn flush(&mut self) -> io::Result<()> {
        match self {
            Standard::Out(out) => out.flush(),
            Standard::Err(err) => err.flush(),
        }
    }
}

/// A stream of the system. It reports what was written to it.
#[derive(Drop)]
pub struct RealSink<W: Write> {
    stream: W,
    log: Log,
    faults: u64,
}

impl<W: Write> RealSink<W> {
    ghost use Rattle.bar_system.specs.RealSink.{stream_of};

    /// This stream, with nothing written so far and no fault.
    pub fn new(stream: W) -> Self
        ensures { stream_of result ≡ stream_by [] 0 }
    {
        RealSink {
            stream,
            log: Log::new(),
            faults: 0,
        }
    }
}

// Writes the bytes. Returns how many of them the stream took, and why it took no more.
fn write_bytes<W: Write>(stream: &mut W, bytes: &[u8]) -> (usize, io::Result<()>)
    ensures few { result.0 ≤ length bytes.now }
    ensures all { OnOk result.1 (result.0 ≡ length bytes.now) }
    // if the stream reports its contents, exactly these bytes were appended
    ensures exact { GetsBytes (W.contents stream.old) (W.contents stream.new) (take result.0 bytes.now) }
{
    let mut took = 0;
    for _ in 0..u64::MAX {
        if took >= bytes.len() {
            return (took, stream.flush());
        }
        match stream.write(&bytes[took..]) {
            Ok(0) => return (took, Err(io::Error::from(ErrorKind::WriteZero))),
            Ok(more) => took += more,
            Err(error) => {
                if error.kind() != ErrorKind::Interrupted {
                    return (took, Err(error));
                }
            }
        }
    }
    (took, Err(io::Error::from(ErrorKind::TimedOut)))
}

impl<W: Write> Sink for RealSink<W> {
    ghost use Rattle.bar_outside.specs.Stream.{Writes};
    ghost use Rattle.bar_system.specs.RealSink.{stream_of, HandsOn};

    ghost stream = { stream_of };

    fn write(&mut self, bytes: &[u8]) -> Result<(), SinkFault>
        ensures writes { Writes bytes.now (stream_of self.old) (stream_of self.new) result }
        // if the stream reports its contents, the history says what was appended to it
        ensures hands_on { HandsOn W.contents self.old self.new }
    {
        let (took, written) = write_bytes(&mut self.stream, bytes);
        self.log = self.log.then(&Note::Wrote(&bytes[..took]));
        match written {
            Ok(()) => Ok(()),
            Err(error) => {
                if error.kind() == ErrorKind::OutOfMemory {
                    return Err(SinkFault::NoMemory);
                }
                self.faults = self.faults.saturating_add(1);
                Err(SinkFault::Failed)
            }
        }
    }
}
