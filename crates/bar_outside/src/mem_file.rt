//! A file in memory.
ghost use Rattle.std.specs.Prelude.{◌≡◌, ◌++◌, true, Ok, IfOk};

use crate::NoMemory;

/// A file in memory, and whether it was created in this run.
#[derive(Drop)]
pub struct MemFile {
    pub bytes: Vec<u8>,
    pub created: bool,
}

impl MemFile {
    /// Appends the bytes if the file was created in this run, and returns whether it was.
    pub fn add(&mut self, bytes: &[u8]) -> Result<bool, NoMemory>
        ensures done { IfOk result (λ done. done ≡ self.old.created) }
        ensures added { result ≡ Ok true → self.new.bytes.items ≡ self.old.bytes.items ++ bytes.now }
        ensures left { (result ≡ Ok true → ⊥) → self.new.bytes.items ≡ self.old.bytes.items }
        ensures created { self.new.created ≡ self.old.created }
    {
        if !self.created {
            return Ok(false);
        }
        self.bytes.extend_from_slice(bytes)?;
        Ok(true)
    }
}
