//! Numbered rooms of one size.
ghost use Rattle.bar_bytes.specs.Code.Sized.{AreSized};

use crate::room::Room;
use std::alloc::{AllocError, Global};

/// Rooms that are numbered from 0 on, all of one size. All memory is allocated when they are made.
#[derive(Debug, Drop)]
pub struct Rooms {
    size: usize,
    rooms: Vec<Room>,
    ghost sized: { AreSized size rooms.items },
}

impl Rooms {
    ghost use Rattle.std.specs.Prelude.{◌≡◌, ℕ, ◌+◌, ◌<◌, ◌≤◌, ◌++◌, ◌==◌, length, Some, None, IfOk, IfSome, option_copied, option_map, if◌then◌else◌};
    ghost use Rattle.bar_bytes.specs.Code.Rooms.{kept_in};

    /// Empty rooms for the numbers below `count`, each for at most `size` bytes.
    pub fn make(alloc: Global, count: usize, size: usize) -> Result<Rooms, AllocError>
        ensures empty { IfOk result (λ r. (number : ℕ) → kept_in r number ≡ None) }
        ensures count { IfOk result (λ r. length r.rooms.items ≡ count) }
        ensures size { IfOk result (λ r. r.size ≡ size) }
    {
        let mut rooms = Vec::new(alloc);
        for _ in 0..count {
            let room = Room::make(alloc, size)?;
            rooms.push(room)?;
        }
        Ok(Rooms { size, rooms })
    }

    /// The most bytes that a room holds.
    pub fn size(&self) -> usize
        ensures { result ≡ self.now.size }
    {
        self.size
    }

    /// Keeps some bytes in a room, in place of those that were kept there.
    pub fn keep(&mut self, number: usize, bytes: &[u8])
        requires last { number < length self.old.rooms.items }
        requires fits { length bytes.now ≤ self.old.size }
        ensures kept { (n : ℕ) → kept_in self.new n ≡ (if n == number then Some bytes.now else kept_in self.old n) }
        ensures count { length self.new.rooms.items ≡ length self.old.rooms.items }
        ensures size { self.new.size ≡ self.old.size }
    {
        self.rooms[number].keep(bytes);
    }

    /// Appends bytes to those that are kept in a room. If none are kept there, it does nothing.
    pub fn add(&mut self, number: usize, bytes: &[u8])
        requires last { number < length self.old.rooms.items }
        requires fits { IfSome (kept_in self.old number) (λ kept. length kept + length bytes.now ≤ self.old.size) }
        ensures kept { (n : ℕ) → kept_in self.new n ≡
            (if n == number then option_map (λ kept. kept ++ bytes.now) (kept_in self.old number) else kept_in self.old n) }
        ensures count { length self.new.rooms.items ≡ length self.old.rooms.items }
        ensures size { self.new.size ≡ self.old.size }
    {
        self.rooms[number].add(bytes);
    }

    /// The bytes that are kept in a room, or `None` if none are or there is no such room.
    pub fn get(&self, number: usize) -> Option<&[u8]>
        ensures { option_copied result ≡ kept_in self.now number }
    {
        self.rooms.get(number)?.kept()
    }
}
