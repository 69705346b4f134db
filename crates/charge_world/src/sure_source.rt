//! A source in memory of which no call fails.

ghost use Rattle.std.specs.Prelude.{◌≡◌, ◌≤◌, ℕ, List, [], length, take, drop, Some, IfOk, IsOk};
ghost use Rattle.charge_world.specs.NamedFiles.{bytes_named, at_place};

use crate::failed::Failed;
use crate::memory_source::{MemorySource, NamedFile};
use crate::outside::Source;
use std::marker::Model;

/// Files in memory of which no call fails: its count of faults is the constant 0.
///
/// It is otherwise a `MemorySource`: a name that isn't there has no bytes, and of two files of one name the first counts.
/// Contracts see the `MemorySource`.
#[derive(Drop)]
pub struct SureSource {
    source: MemorySource,
}

impl Model for SureSource {
    ghost use Rattle.std.specs.Prelude.{◌≡◌, []};
    ghost use Rattle.charge_world.specs.declared.memory_source.MemorySource.{MemorySource};

    ghost Value = { MemorySource };

    ghost view = { λ s. s.source };

    ghost invariant = { λ s. s.source.outages.failing ≡ [] };
}

impl SureSource {
    ghost use Rattle.charge_world.specs.Scripts.{IsUnread};

    /// A source of these files.
    pub fn of(files: Vec<NamedFile>) -> SureSource
        ensures { IsUnread files.items [] result }
    {
        let none = Vec::new(*files.allocator());
        SureSource {
            source: MemorySource::of(files, none),
        }
    }
}

impl Source for SureSource {
    ghost use Rattle.charge_world.specs.Outside.{Takes, GoesOn};

    ghost holds = { λ s name. Some (bytes_named s.files.items name) };

    ghost left = { λ s. Some (drop s.at (at_place s.files.items s.current)) };

    ghost faults = { λ s. 0 };

    fn begin(&mut self, name: &str) -> Result<(), Failed>
        ensures done { IsOk result }
        ensures left { Some (drop self.new.at (at_place self.new.files.items self.new.current)) ≡ Some (bytes_named self.old.files.items name.now) }
        ensures holds { (other : List ℕ) → Some (bytes_named self.new.files.items other) ≡ Some (bytes_named self.old.files.items other) }
    {
        match self.source.begin(name) {
            Ok(()) => Ok(()),
            Err(_) => unreachable!(),
        }
    }

    fn read(&mut self, room: &mut [u8]) -> Result<usize, Failed>
        ensures done { IsOk result }
        ensures bound { IfOk result (λ n. n ≤ length room.new) }
        ensures taken { IfOk result (λ n. Takes (Some (drop self.old.at (at_place self.old.files.items self.old.current))) (Some (drop self.new.at (at_place self.new.files.items self.new.current))) (take n room.new)) }
        ensures end { IfOk result (λ n. GoesOn (Some (drop self.old.at (at_place self.old.files.items self.old.current))) (length room.new) n) }
        ensures holds { (other : List ℕ) → Some (bytes_named self.new.files.items other) ≡ Some (bytes_named self.old.files.items other) }
    {
        match self.source.read(room) {
            Ok(n) => Ok(n),
            Err(_) => unreachable!(),
        }
    }
}
