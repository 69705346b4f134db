//! A wire in memory of which no call fails.

ghost use Rattle.std.specs.Prelude.{true, ◌≡◌, [], ◌∷◌, length, reverse, Some, IsSome, IfOk, IfSome, IsOk};
ghost use Rattle.charge_world.specs.declared.entry.Entry.TheVariants as entry;
ghost use Rattle.charge_world.specs.Outside.{Grows, GrowsByOne, IsOfPosts, HasCount, bytes_of, posts_of};

use crate::entry::Entry;
use crate::failed::{Failed, NoMemory};
use crate::heard::Heard;
use crate::memory_wire::{MemoryWire, Scripted};
use crate::outside::Wire;
use crate::ports::{Order, Ports};
use std::alloc::Global;
use std::marker::Model;

/// A wire in memory of which no call fails: its count of faults is the constant 0.
///
/// It is otherwise a `MemoryWire`: it gives a script, keeps its past, takes all its memory when it is made, and where its room
/// is used up it gives `Over` at each further `next` and tells no past from then on. Contracts see the `MemoryWire`.
#[derive(Drop)]
pub struct SureWire {
    wire: MemoryWire,
}

impl Model for SureWire {
    ghost use Rattle.std.specs.Prelude.{◌≡◌, []};
    ghost use Rattle.charge_world.specs.declared.memory_wire.MemoryWire.{MemoryWire};

    ghost Value = { MemoryWire };

    ghost view = { λ w. w.wire };

    ghost invariant = { λ w. w.wire.outages.failing ≡ [] };
}

impl SureWire {
    ghost use Rattle.charge_world.specs.Scripts.{IsUnused};

    /// A wire with this script, and with room for so many entries with so many bytes in all, and as many `untils`.
    pub fn make(
        alloc: Global,
        script: Vec<Scripted>,
        entries: u32,
        bytes: u32,
    ) -> Result<SureWire, NoMemory>
        ensures { IfOk result (λ w. IsUnused script.items [] entries bytes w) }
    {
        let wire = MemoryWire::make(alloc, script, Vec::new(alloc), entries, bytes)?;
        Ok(SureWire { wire })
    }

    /// The entries that it kept, the oldest first.
    pub fn entries(&self, alloc: Global) -> Result<Vec<Entry>, NoMemory>
        ensures { IfOk result (λ v. IfSome self.now.log.past (λ past. past ≡ reverse v.items)) }
    {
        self.wire.entries(alloc)
    }

    /// The `until` of each `next`, the oldest first.
    pub fn untils(&self) -> &[u64]
        ensures { result.now ≡ self.now.untils.items }
    {
        self.wire.untils()
    }
}

impl Wire for SureWire {
    ghost use Rattle.charge_world.specs.Scripts.{Notes, NotesHearing};

    ghost past = { λ w. w.log.past };

    ghost untils = { λ w. reverse w.untils.items };

    ghost started = { λ w. w.started };

    ghost posts = { λ w. w.posts };

    ghost faults = { λ w. 0 };

    fn start(&mut self, ports: &Ports) -> Result<(), Failed>
        ensures done { IsOk result }
        ensures past { Grows self.old.log.past self.new.log.past [] }
        ensures untils { IsSome self.new.log.past → reverse self.new.untils.items ≡ reverse self.old.untils.items }
        ensures started { self.new.started ≡ Some ports.now }
        ensures posts { self.new.posts ≡ posts_of ports.now }
        ensures room { (self.new.log ≡ self.old.log) × (self.new.untils ≡ self.old.untils) }
    {
        match self.wire.start(ports) {
            Ok(()) => Ok(()),
            Err(_) => unreachable!(),
        }
    }

    fn next(&mut self, until: u64, room: &mut [u8]) -> Result<Heard, Failed>
        requires { length room.old ≡ 4096 }
        ensures done { IsOk result }
        ensures heard { IfOk result (λ heard. GrowsByOne self.old.log.past self.new.log.past (entry.Heard heard (bytes_of heard.what room.new))) }
        ensures post { IfOk result (λ heard. IsOfPosts self.old.posts heard.what) }
        ensures count { IfOk result (λ heard. HasCount heard.what) }
        ensures untils { IsSome self.new.log.past → reverse self.new.untils.items ≡ until ∷ reverse self.old.untils.items }
        ensures started { self.new.started ≡ self.old.started }
        ensures posts { self.new.posts ≡ self.old.posts }
        ensures room { IfOk result (λ heard. NotesHearing self.old self.new (length (bytes_of heard.what room.new))) }
    {
        match self.wire.next(until, room) {
            Ok(heard) => Ok(heard),
            Err(_) => unreachable!(),
        }
    }

    fn send(&mut self, post: u8, bytes: &[u8]) -> Result<(), Failed>
        ensures done { IsOk result }
        ensures sent { GrowsByOne self.old.log.past self.new.log.past (entry.Sent post bytes.now true) }
        ensures untils { IsSome self.new.log.past → reverse self.new.untils.items ≡ reverse self.old.untils.items }
        ensures started { self.new.started ≡ self.old.started }
        ensures posts { self.new.posts ≡ self.old.posts }
        ensures room { Notes self.old self.new (length bytes.now) }
    {
        match self.wire.send(post, bytes) {
            Ok(()) => Ok(()),
            Err(_) => unreachable!(),
        }
    }

    fn answer(&mut self, post: u8, bytes: &[u8]) -> Result<(), Failed>
        ensures done { IsOk result }
        ensures answered { GrowsByOne self.old.log.past self.new.log.past (entry.Answered post bytes.now true) }
        ensures untils { IsSome self.new.log.past → reverse self.new.untils.items ≡ reverse self.old.untils.items }
        ensures started { self.new.started ≡ self.old.started }
        ensures posts { self.new.posts ≡ self.old.posts }
        ensures room { Notes self.old self.new (length bytes.now) }
    {
        match self.wire.answer(post, bytes) {
            Ok(()) => Ok(()),
            Err(_) => unreachable!(),
        }
    }

    fn drive(&mut self, post: u8, order: Order) -> Result<(), Failed>
        ensures done { IsOk result }
        ensures drove { GrowsByOne self.old.log.past self.new.log.past (entry.Drove post order true) }
        ensures untils { IsSome self.new.log.past → reverse self.new.untils.items ≡ reverse self.old.untils.items }
        ensures started { self.new.started ≡ self.old.started }
        ensures posts { self.new.posts ≡ self.old.posts }
        ensures room { Notes self.old self.new 0 }
    {
        match self.wire.drive(post, order) {
            Ok(()) => Ok(()),
            Err(_) => unreachable!(),
        }
    }

    fn dial(&mut self, port: u16) -> Result<(), Failed>
        ensures done { IsOk result }
        ensures dialed { GrowsByOne self.old.log.past self.new.log.past (entry.Dialed port true) }
        ensures untils { IsSome self.new.log.past → reverse self.new.untils.items ≡ reverse self.old.untils.items }
        ensures started { self.new.started ≡ self.old.started }
        ensures posts { self.new.posts ≡ self.old.posts }
        ensures room { Notes self.old self.new 0 }
    {
        match self.wire.dial(port) {
            Ok(()) => Ok(()),
            Err(_) => unreachable!(),
        }
    }

    fn end(&mut self, post: u8, cause: u8)
        ensures ended { GrowsByOne self.old.log.past self.new.log.past (entry.Ended post cause) }
        ensures untils { IsSome self.new.log.past → reverse self.new.untils.items ≡ reverse self.old.untils.items }
        ensures started { self.new.started ≡ self.old.started }
        ensures posts { self.new.posts ≡ self.old.posts }
        ensures room { Notes self.old self.new 0 }
    {
        self.wire.end(post, cause);
    }
}
