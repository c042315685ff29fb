//! Files in memory.
ghost use Rattle.std.specs.Prelude.{◌≡◌, ◌⊎◌, true, false, IfOk, OnOk, OnErr, IsErr, IsNone, IsTrue, None, Some, Ok, Err};
ghost use Rattle.std.specs.Option.{option_copied};
ghost use Rattle.bar_outside.specs.Disk.{created, appended, put_at, readable, with_file};
ghost use Rattle.bar_outside.specs.Code.Schedule.{failing, next_call, fails_next, fails_never};
ghost use Rattle.bar_outside.specs.Code.MemFiles.{content_of, created_in};

use crate::mem_file::MemFile;
use crate::schedule::{Schedule, is_listed, new_schedule};
use crate::{CallKind, FileFault, Files, LARGEST_FILE, NoMemory};
use std::alloc::Global;
use std::collections::BTreeMap;

/// A call that failed.
#[derive(Drop)]
pub struct FailedCall {
    pub kind: CallKind,
    pub path: String,
}

/// Files in memory. The calls with the given numbers, counted from 1, fail. A failing append may append the first half of its bytes.
#[derive(Drop)]
pub struct MemFiles {
    alloc: Global,
    files: BTreeMap<String, MemFile>,
    schedule: Schedule,
    faults: u64,
    failed: Option<FailedCall>,
}

impl MemFiles {
    ghost use Rattle.bar_outside.specs.Code.MemFiles.{disk_of, schedule_of};
    ghost use Rattle.bar_outside.specs.Disk.{Calls};
    ghost use Rattle.std.specs.Prelude.{⊤};

    /// No files. `fail` contains the numbers of the calls that are to fail.
    pub fn make(alloc: Global, fail: Vec<u64>) -> MemFiles
        ensures disk { disk_of result ≡
            record {
              told = true;
              reliable = fails_never (failing fail);
              content = λ path. None;
              created_here = λ path. false;
              failed = None;
              faults = 0;
            } }
        ensures schedule { schedule_of result ≡ failing fail }
    {
        MemFiles {
            alloc,
            files: BTreeMap::new(alloc),
            schedule: new_schedule(fail),
            faults: 0,
            failed: None,
        }
    }

    /// Puts a file with these bytes there. This isn't counted as a call, nor as the creation of the file in this run.
    pub fn put(&mut self, path: &str, bytes: &[u8]) -> Result<(), NoMemory>
        ensures put { OnOk result (disk_of self.new ≡
            record (disk_of self.old) { content = put_at (disk_of self.old).content path.now bytes.now }) }
        ensures err { OnErr result (disk_of self.new ≡ disk_of self.old) }
        ensures uncounted { schedule_of self.new ≡ schedule_of self.old }
    {
        let name = String::from_str(self.alloc, path)?;
        let bytes = bytes.to_vec(self.alloc)?;
        let created = is_created(&self.files, path);
        self.files.insert(name, MemFile { bytes, created })?;
        Ok(())
    }

    /// The bytes of a file, if it exists. This isn't counted as a call.
    pub fn get(&self, path: &str) -> Option<&[u8]>
        ensures { option_copied result ≡ (disk_of self.now).content path.now }
    {
        Some(self.files.get(path)?.bytes.as_slice())
    }

    // Counts a fault of this call, and keeps its kind and path.
    fn note_fault(&mut self, kind: CallKind, path: &str) -> FileFault
        ensures call { Calls {T = ⊤} kind path.now (disk_of self.old) (disk_of self.new) (Err result) }
        ensures files { self.new.files ≡ self.old.files }
        ensures schedule { self.new.schedule ≡ self.old.schedule }
    {
        match String::from_str(self.alloc, path) {
            Ok(path) => {
                self.faults = self.faults.saturating_add(1);
                self.failed = Some(FailedCall { kind, path });
                FileFault::Failed
            }
            Err(_) => FileFault::NoMemory,
        }
    }
}

impl Files for MemFiles {
    ghost use Rattle.bar_outside.specs.Disk.{Reads, Creates, Appends};
    ghost use Rattle.bar_outside.specs.Code.MemFiles.{disk_of, schedule_of};

    // their content doesn't depend on an assumed initial content, and each read agrees with it
    ghost disk = { λ files was. disk_of files };

    fn read(&mut self, path: &str) -> Result<Vec<u8>, FileFault>
        ensures reads { Reads path.now (disk_of self.old) (disk_of self.new) result }
        ensures counted { schedule_of self.new ≡ next_call (schedule_of self.old) }
        ensures listed { IsTrue (fails_next (schedule_of self.old)) → IsErr result }
        ensures only_listed { result ≡ Err FileFault.Failed →
            IsTrue (fails_next (schedule_of self.old)) ⊎ IsNone (readable (disk_of self.old).content path.now) }
    {
        if is_listed(&mut self.schedule) {
            return Err(self.note_fault(CallKind::Read, path));
        }
        match self.files.get(path) {
            Some(file) if file.bytes.len() <= LARGEST_FILE => Ok(file.bytes.to_vec(self.alloc)?),
            _ => Err(self.note_fault(CallKind::Read, path)),
        }
    }

    fn create(&mut self, path: &str) -> Result<(), FileFault>
        ensures creates { Creates path.now (disk_of self.old) (disk_of self.new) result }
        ensures counted { schedule_of self.new ≡ next_call (schedule_of self.old) }
        ensures listed { IsTrue (fails_next (schedule_of self.old)) → IsErr result }
        ensures only_listed { result ≡ Err FileFault.Failed → IsTrue (fails_next (schedule_of self.old)) }
    {
        if is_listed(&mut self.schedule) {
            return Err(self.note_fault(CallKind::Create, path));
        }
        put_empty(self.alloc, &mut self.files, path)?;
        Ok(())
    }

    fn append(&mut self, path: &str, bytes: &[u8]) -> Result<(), FileFault>
        ensures appends { Appends path.now bytes.now (disk_of self.old) (disk_of self.new) result }
        ensures counted { schedule_of self.new ≡ next_call (schedule_of self.old) }
        ensures listed { IsTrue (fails_next (schedule_of self.old)) → IsErr result }
        ensures only_listed { result ≡ Err FileFault.Failed →
            IsTrue (fails_next (schedule_of self.old)) ⊎ ((disk_of self.old).created_here path.now ≡ false) }
    {
        if is_listed(&mut self.schedule) {
            let _ = add_bytes(&mut self.files, path, &bytes[..bytes.len() / 2]);
            return Err(self.note_fault(CallKind::Append, path));
        }
        if add_bytes(&mut self.files, path, bytes)? {
            return Ok(());
        }
        Err(self.note_fault(CallKind::Append, path))
    }
}

// Creates an empty file with this name.
fn put_empty(
    alloc: Global,
    files: &mut BTreeMap<String, MemFile>,
    path: &str,
) -> Result<(), NoMemory>
    ensures made { OnOk result (content_of files.new ≡ created (content_of files.old) path.now) }
    ensures here { OnOk result (created_in files.new ≡ with_file (created_in files.old) path.now) }
    ensures err { OnErr result (content_of files.new ≡ content_of files.old) }
    ensures err_here { OnErr result (created_in files.new ≡ created_in files.old) }
{
    let name = String::from_str(alloc, path)?;
    let bytes = Vec::new(alloc);
    let created = true;
    files.insert(name, MemFile { bytes, created })?;
    Ok(())
}

// Whether a file with this name was created in this run.
fn is_created(files: &BTreeMap<String, MemFile>, path: &str) -> bool
    ensures { result ≡ created_in files.now path.now }
{
    match files.get(path) {
        Some(file) => file.created,
        None => false,
    }
}

// Appends the bytes to the file with this name if it was created in this run, and returns whether it was.
fn add_bytes(
    files: &mut BTreeMap<String, MemFile>,
    path: &str,
    bytes: &[u8],
) -> Result<bool, NoMemory>
    ensures done { IfOk result (λ done. done ≡ created_in files.old path.now) }
    ensures added { result ≡ Ok true → content_of files.new ≡ appended (content_of files.old) path.now bytes.now }
    ensures left { (result ≡ Ok true → ⊥) → content_of files.new ≡ content_of files.old }
    ensures same { created_in files.new ≡ created_in files.old }
{
    match files.get_mut(path) {
        Some(file) => file.add(bytes),
        None => Ok(false),
    }
}
