//! A source in memory.

ghost use Rattle.std.specs.Prelude.{◌≡◌, ◌≤◌, ℕ, List, length, take, drop, Some, IfOk, OnOk, is_err};
ghost use Rattle.charge_world.specs.NamedFiles.{bytes_named, at_place};

use crate::failed::Failed;
use crate::outages::Outages;
use crate::outside::Source;
use crate::piece::Piece;

/// A file in memory.
#[derive(Drop)]
pub struct NamedFile {
    pub name: Piece,
    pub bytes: Piece,
}

/// Files in memory. A name that isn't there has no bytes; of two files of one name the first counts.
#[derive(Drop)]
pub struct MemorySource {
    files: Vec<NamedFile>,
    current: usize,
    at: usize,
    outages: Outages,
}

impl MemorySource {
    ghost use Rattle.charge_world.specs.Scripts.{IsUnread};

    /// A source of these files, whose calls of these numbers fail, counted from 1.
    pub fn of(files: Vec<NamedFile>, failing: Vec<u32>) -> MemorySource
        ensures { IsUnread files.items failing.items result }
    {
        let current = files.len();
        MemorySource {
            files,
            current,
            at: 0,
            outages: Outages::of(failing),
        }
    }
}

impl Source for MemorySource {
    ghost use Rattle.charge_world.specs.Fakes.{Counts};
    ghost use Rattle.charge_world.specs.Outside.{IsFault, Takes, GoesOn};

    ghost holds = { λ s name. Some (bytes_named s.files.items name) };

    ghost left = { λ s. Some (drop s.at (at_place s.files.items s.current)) };

    ghost faults = { λ s. s.outages.faults };

    fn begin(&mut self, name: &str) -> Result<(), Failed>
        ensures left { OnOk result (Some (drop self.new.at (at_place self.new.files.items self.new.current)) ≡ Some (bytes_named self.old.files.items name.now)) }
        ensures holds { (other : List ℕ) → Some (bytes_named self.new.files.items other) ≡ Some (bytes_named self.old.files.items other) }
        ensures faults { IsFault self.old.outages.faults self.new.outages.faults result }
        ensures outage { Counts self.old.outages (is_err result) self.new.outages }
    {
        if self.outages.fails() {
            return Err(Failed);
        }
        self.current = place_of(&self.files, name.as_bytes());
        self.at = 0;
        Ok(())
    }

    fn read(&mut self, room: &mut [u8]) -> Result<usize, Failed>
        ensures bound { IfOk result (λ n. n ≤ length room.new) }
        ensures taken { IfOk result (λ n. Takes (Some (drop self.old.at (at_place self.old.files.items self.old.current))) (Some (drop self.new.at (at_place self.new.files.items self.new.current))) (take n room.new)) }
        ensures end { IfOk result (λ n. GoesOn (Some (drop self.old.at (at_place self.old.files.items self.old.current))) (length room.new) n) }
        ensures holds { (other : List ℕ) → Some (bytes_named self.new.files.items other) ≡ Some (bytes_named self.old.files.items other) }
        ensures faults { IsFault self.old.outages.faults self.new.outages.faults result }
        ensures outage { Counts self.old.outages (is_err result) self.new.outages }
    {
        if self.outages.fails() {
            return Err(Failed);
        }
        if self.current >= self.files.len() {
            return Ok(0);
        }
        let file = &self.files[self.current];
        let bytes = file.bytes.bytes();
        if self.at >= bytes.len() {
            return Ok(0);
        }
        let n = room.len().min(bytes.len() - self.at);
        room[..n].copy_from_slice(&bytes[self.at..self.at + n]);
        self.at += n;
        Ok(n)
    }
}

/// The place of the first file of that name, the number of files where there is none.
fn place_of(files: &[NamedFile], name: &[u8]) -> usize
    ensures { at_place files.now result ≡ bytes_named files.now name.now }
{
    for (i, file) in files.iter().enumerate() {
        if file.name.bytes() == name {
            return i;
        }
    }
    files.len()
}
