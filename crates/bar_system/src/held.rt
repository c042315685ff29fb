//! Files that a run creates. Each is locked until the run ends and accessible to its owner alone. None of them replaces a key, except with
//! the same key.
ghost use Rattle.std.specs.Prelude.{◌≡◌};

use std::fs::{File, Metadata, OpenFile, OpenOptions, Permissions};
use std::io::{ErrorKind, Read};
use std::os::unix::fs::{MetadataExt, OpenOptionsExt, PermissionsExt};
use std::{fs, io, rt};

/// The mode of a created file: its owner alone may read and write it.
const OWNERS_ALONE: u32 = 0o600;

/// How many bytes of a file are searched for a key text. A key file has less than 300 bytes.
const LONGEST_KEY: u64 = 4_096;

/// The text before the secret in a key file, and the number of digits of the secret.
const SECRET: &str = "secret = \"";

const SECRET_DIGITS: usize = 64;

/// An open file of a runtime that can be locked.
pub trait Lockable {
    /// Locks the file until it is closed. If another run has locked it, the call fails.
    fn lock_now(&self) -> io::Result<()>;
}

impl Lockable for File {
    fn lock_now(&self) -> io::Result<()> {
        Ok(self.try_lock()?)
    }
}

/// The identity of a file and its state when it was read.
#[derive(Clone, Copy, PartialEq, Eq)]
pub struct Mark {
    dev: u64,
    ino: u64,
    len: u64,
    modified: (i64, i64),
    changed: (i64, i64),
}

/// The state of a file that is written beside an old one: the old file's path and handle, the new file's name, and whether it has replaced
/// the old file. That happens as soon as it holds any bytes.
#[derive(Drop)]
pub struct Beside<F> {
    path: String,
    name: String,
    // the old file is kept open for its lock
    old: F,
    is_placed: bool,
}

/// A file that was created, open and locked.
#[derive(Drop)]
pub struct HeldFile<F> {
    pub file: F,
    beside: Option<Beside<F>>,
}

/// The mark of an open file: its identity and current state.
pub fn mark_of<F: OpenFile>(file: &F) -> io::Result<Mark> {
    Ok(standing(&file.metadata()?))
}

fn standing(known: &Metadata) -> Mark {
    Mark {
        dev: known.dev(),
        ino: known.ino(),
        len: known.len(),
        modified: (known.mtime(), known.mtime_nsec()),
        changed: (known.ctime(), known.ctime_nsec()),
    }
}

fn refusal() -> io::Error {
    io::Error::from(ErrorKind::PermissionDenied)
}

// The digits of the secret in a key text.
fn secret_in(text: &str) -> Option<&str> {
    for line in text.lines() {
        if let Some(rest) = line.strip_prefix(SECRET) {
            if let Some(digits) = rest.get(..SECRET_DIGITS) {
                return Some(digits);
            }
        }
    }
    None
}

// The digits of the secret in a file that holds a key text.
fn secret_of<R: rt::Files + AllocGlobal>(rt: &R, path: &str) -> io::Result<Option<String>> {
    let mut bytes = Vec::new(rt.alloc());
    fs::open(rt, path)?
        .take(LONGEST_KEY)
        .read_to_end(&mut bytes)?;
    match str::from_utf8(&bytes) {
        Ok(text) => match secret_in(text) {
            Some(digits) => Ok(Some(String::from_str(rt.alloc(), digits)?)),
            None => Ok(None),
        },
        Err(_) => Ok(None),
    }
}

// Whether a file holds the secret of a key, and not that of another file.
fn holds_other_secret<R: rt::Files + AllocGlobal>(
    rt: &R,
    path: &str,
    other: &str,
) -> io::Result<bool> {
    match secret_of(rt, path)? {
        Some(secret) => Ok(secret_of(rt, other)? != Some(secret)),
        None => Ok(false),
    }
}

// Whether these are of one regular file.
fn is_one_file(here: &Metadata, named: &Metadata) -> bool {
    here.dev() == named.dev() && here.ino() == named.ino() && here.is_file()
}

// The same open file, if the name still refers to it.
fn still_named<R: rt::Files>(rt: &R, path: &str, file: R::File) -> io::Result<R::File> {
    if !is_one_file(&file.metadata()?, &fs::metadata(rt, path)?) {
        return Err(refusal());
    }
    Ok(file)
}

// Opens the file of this name, creating it if `may_be_new`, and locks it. Then checks that the name still refers to it.
fn open_locked<R: rt::Files<File: Lockable>>(
    rt: &R,
    path: &str,
    may_be_new: bool,
) -> io::Result<R::File> {
    let mut how = OpenOptions::new();
    how.append(true).create(may_be_new).mode(OWNERS_ALONE);
    let file = how.open(rt, path)?;
    file.lock_now()?;
    still_named(rt, path, file)
}

// Empties a locked file and restricts its mode to its owner.
fn empty<F: OpenFile>(file: &F) -> io::Result<()> {
    file.set_permissions(Permissions::from_mode(OWNERS_ALONE))?;
    file.set_len(0)
}

// Opens an empty file of this name, which was not read in this run. The name may be that of a device.
fn open_new<R: rt::Files<File: Lockable> + AllocGlobal>(
    rt: &R,
    path: &str,
) -> io::Result<HeldFile<R::File>> {
    if let Ok(known) = fs::metadata(rt, path) {
        if !known.is_file() {
            let file = OpenOptions::new().write(true).open(rt, path)?;
            return Ok(HeldFile { file, beside: None });
        }
    }
    let file = open_locked(rt, path, true)?;
    if file.metadata()?.len() > 0 && secret_of(rt, path)?.is_some() {
        return Err(refusal());
    }
    empty(&file)?;
    Ok(HeldFile { file, beside: None })
}

// Opens an empty file beside the file of this name, which must be unchanged since it was read in this run.
fn open_beside<R: rt::Files<File: Lockable> + AllocGlobal>(
    rt: &R,
    path: &str,
    was: Mark,
) -> io::Result<HeldFile<R::File>> {
    let path = String::from_str(rt.alloc(), fs::canonicalize(rt, path)?.as_path().as_str())?;
    let old = open_locked(rt, path.as_str(), false)?;
    let known = old.metadata()?;
    // Under a second name the old file would remain.
    if standing(&known) != was || known.nlink() != 1 {
        return Err(refusal());
    }
    let mut name = String::from_str(rt.alloc(), path.as_str())?;
    name.push_str(".new")?;
    let file = open_locked(rt, name.as_str(), true)?;
    // A file that an earlier run of the same key left there is overwritten.
    if file.metadata()?.len() > 0 && holds_other_secret(rt, name.as_str(), path.as_str())? {
        return Err(refusal());
    }
    empty(&file)?;
    let beside = Beside {
        path,
        name,
        old,
        is_placed: false,
    };
    Ok(HeldFile {
        file,
        beside: Some(beside),
    })
}

/// Opens an empty file of this name and locks it. If the file was read in this run, the empty file is opened beside it. The call fails and
/// leaves the file unchanged if it can't be locked, if it changed since it was read, or if it holds a key text and wasn't read.
pub fn open_held<R: rt::Files<File: Lockable> + AllocGlobal>(
    rt: &R,
    path: &str,
    was: Option<Mark>,
) -> io::Result<HeldFile<R::File>> {
    match was {
        Some(was) => open_beside(rt, path, was),
        None => open_new(rt, path),
    }
}

impl<F: OpenFile> HeldFile<F> {
    /// The name of the file that holds the bytes.
    pub fn name<'a>(&'a self, path: &'a str) -> &'a str {
        match &self.beside {
            Some(beside) if !beside.is_placed => beside.name.as_str(),
            _ => path,
        }
    }

    /// Empties the file again. The call fails if the file holds a key text.
    pub fn empty_again<R: rt::Files + AllocGlobal>(&self, rt: &R, path: &str) -> io::Result<()> {
        if !self.file.metadata()?.is_file() {
            return Ok(());
        }
        if secret_of(rt, self.name(path))?.is_some() {
            return Err(refusal());
        }
        self.file.set_len(0)
    }

    /// If the file is written beside an old one, it replaces the old one, unless it already has. A key file is replaced only by the same
    /// key.
    pub fn place<R: rt::Files + AllocGlobal>(&mut self, rt: &R) -> io::Result<()>
        ensures same { self.new.file ≡ self.old.file }
    {
        let file = &self.file;
        match &mut self.beside {
            Some(beside) if !beside.is_placed => {
                put_over(rt, file, beside)?;
                beside.is_placed = true;
                Ok(())
            }
            _ => Ok(()),
        }
    }
}

// The folder of the file of a canonical path.
fn folder_of(path: &str) -> &str {
    match path.rfind('/') {
        Some(0) | None => "/",
        Some(end) => path.get(..end).unwrap_or("/"),
    }
}

// Renames the file over the old one and makes this durable against a crash of the machine.
fn put_over<R: rt::Files + AllocGlobal, F: OpenFile>(
    rt: &R,
    file: &F,
    beside: &Beside<F>,
) -> io::Result<()> {
    let (path, name) = (beside.path.as_str(), beside.name.as_str());
    if holds_other_secret(rt, path, name)? {
        return Err(refusal());
    }
    file.sync_all()?;
    fs::rename(rt, name, path)?;
    fs::open(rt, folder_of(path))?.sync_all()
}
