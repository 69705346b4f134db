//! A wire in memory: it gives a script, fails the calls that it is told to fail, and keeps its past.

ghost use Rattle.std.specs.Prelude.{◌≡◌, ◌≤◌, ◌↔◌, ℕ, List, [], ◌∷◌, length, take, reverse, Some, IsTrue, IsSome, IfOk, OnOk, OnErr, IfSome, IfNone, is_ok, is_err};
ghost use Rattle.charge_world.specs.declared.entry.Entry.TheVariants as entry;
ghost use Rattle.charge_world.specs.Outside.{Grows, GrowsByOne, IsOfPosts, HasCount, bytes_of, posts_of, IsFault};
ghost use Rattle.charge_world.specs.Fakes.{Spends, Counts};
ghost use Rattle.charge_world.specs.Scripting.{Fits, FitsAt, NoneFits, moment_of};

use crate::entry::Entry;
use crate::failed::{Failed, NoMemory};
use crate::heard::{Heard, What};
use crate::log::{Log, Note};
use crate::outages::Outages;
use crate::outside::Wire;
use crate::piece::Piece;
use crate::ports::{Order, Ports};
use crate::reserved::Reserved;
use std::alloc::Global;

/// An event of a script, with its bytes.
#[derive(Drop)]
pub struct Scripted {
    pub heard: Heard,
    pub bytes: Piece,
}

/// A wire in memory. It takes all its memory when it is made.
///
/// It gives the script's events in turn, and then `Over` at the moment of the last one. An event of a post that wasn't started
/// is left out, and so is one whose `n` isn't the length of its bytes or is above 4,096, or a `Bytes` without bytes. Where its
/// room is used up it gives `Over` at each further `next`, and tells no past from then on.
#[derive(Drop)]
pub struct MemoryWire {
    script: Vec<Scripted>,
    at: usize,
    started: Option<Ports>,
    posts: u8,
    outages: Outages,
    log: Log,
    untils: Reserved<u64>,
}

impl MemoryWire {
    ghost use Rattle.charge_world.specs.Scripts.{IsUnused, KeepsUntil, IsGiven, Untouched};

    /// A wire with this script, whose calls of these numbers fail (counted from 1 over all calls that can fail), and with room
    /// for so many entries with so many bytes in all, and as many `untils`.
    pub fn make(
        alloc: Global,
        script: Vec<Scripted>,
        failing: Vec<u32>,
        entries: u32,
        bytes: u32,
    ) -> Result<MemoryWire, NoMemory>
        ensures { IfOk result (λ w. IsUnused script.items failing.items entries bytes w) }
    {
        Ok(MemoryWire {
            script,
            at: 0,
            started: None,
            posts: 0,
            outages: Outages::of(failing),
            log: Log::make(alloc, entries, bytes)?,
            untils: Reserved::make(alloc, entries)?,
        })
    }

    /// The entries that it kept, the oldest first.
    pub fn entries(&self, alloc: Global) -> Result<Vec<Entry>, NoMemory>
        ensures { IfOk result (λ v. IfSome self.now.log.past (λ past. past ≡ reverse v.items)) }
    {
        self.log.entries(alloc)
    }

    /// The `until` of each `next`, the oldest first.
    pub fn untils(&self) -> &[u64]
        ensures { result.now ≡ self.now.untils.items }
    {
        self.untils.items()
    }

    /// Keeps an `until`, or tells no past any more.
    fn keep_until(&mut self, until: u64)
        ensures kept { KeepsUntil until self.old self.new }
    {
        if self.untils.has_room(1) {
            self.untils.push(until);
        } else {
            self.log.close();
        }
    }

    /// Counts a call, and answers whether it fails.
    fn fails(&mut self) -> bool
        ensures outage { Counts self.old.outages result self.new.outages }
        ensures same { (self.new.log ≡ self.old.log) × (self.new.untils ≡ self.old.untils) × (self.new.posts ≡ self.old.posts) × (self.new.started ≡ self.old.started) }
    {
        self.outages.fails()
    }

    /// Keeps that a hearing was lost.
    fn lose(&mut self)
        ensures kept { GrowsByOne self.old.log.past self.new.log.past entry.Lost }
        ensures room { Spends self.old.log self.new.log 0 }
        ensures same { (self.new.outages ≡ self.old.outages) × (self.new.untils ≡ self.old.untils) × (self.new.posts ≡ self.old.posts) × (self.new.started ≡ self.old.started) }
    {
        self.log.note(Note::Lost, &[]);
    }

    /// Keeps what was heard, with its bytes, which are the first of the room.
    fn keep(&mut self, heard: &Heard, room: &[u8])
        requires room { length room.now ≡ 4096 }
        requires count { HasCount heard.now.what }
        ensures kept { GrowsByOne self.old.log.past self.new.log.past (entry.Heard heard.now (bytes_of heard.now.what room.now)) }
        ensures room { Spends self.old.log self.new.log (length (bytes_of heard.now.what room.now)) }
        ensures untils { self.new.untils ≡ self.old.untils }
        ensures posts { self.new.posts ≡ self.old.posts }
        ensures started { self.new.started ≡ self.old.started }
        ensures outages { self.new.outages ≡ self.old.outages }
    {
        let n = brought(heard.what);
        let bytes = &room[..n];
        self.log.note(Note::Heard(*heard), bytes);
    }

    /// The next event of the script, with its bytes at the front of the room.
    fn take(&mut self, room: &mut [u8]) -> Heard
        requires { length room.old ≡ 4096 }
        ensures given { IsGiven self.old result self.new }
        ensures posts { IsOfPosts self.old.posts result.what }
        ensures count { HasCount result.what }
        ensures same { Untouched self.old self.new }
    {
        if !self.log.is_full() {
            if let Some(k) = next_fitting(&self.script, self.at, self.posts) {
                self.at = k + 1;
                let scripted = &self.script[k];
                put(scripted.bytes.bytes(), room);
                return scripted.heard;
            }
        }
        Heard {
            at: last_moment(&self.script),
            what: What::Over,
        }
    }
}

/// How a call of a fake went.
fn outcome(taken: bool) -> Result<(), Failed>
    ensures { is_ok result ≡ taken }
{
    if taken { Ok(()) } else { Err(Failed) }
}

/// How many bytes come with an event.
fn brought(what: What) -> usize
    ensures count { HasCount what → result ≤ 4096 }
    ensures bytes { (room : List ℕ) → take result room ≡ bytes_of what room }
{
    match what {
        What::Bytes { post: _, n } | What::Datagram { post: _, n } => n as usize,
        What::Came { .. } | What::Gone { .. } | What::Plant { .. } | What::Tick | What::Over => 0,
    }
}

impl Wire for MemoryWire {
    ghost use Rattle.charge_world.specs.Scripts.{Notes, NotesHearing};

    ghost past = { λ w. w.log.past };

    ghost untils = { λ w. reverse w.untils.items };

    ghost started = { λ w. w.started };

    ghost posts = { λ w. w.posts };

    ghost faults = { λ w. w.outages.faults };

    fn start(&mut self, ports: &Ports) -> Result<(), Failed>
        ensures past { Grows self.old.log.past self.new.log.past [] }
        ensures untils { IsSome self.new.log.past → reverse self.new.untils.items ≡ reverse self.old.untils.items }
        ensures started { self.new.started ≡ Some ports.now }
        ensures posts { OnOk result (self.new.posts ≡ posts_of ports.now) }
        ensures faults { IsFault self.old.outages.faults self.new.outages.faults result }
        ensures outage { Counts self.old.outages (is_err result) self.new.outages }
        ensures room { (self.new.log ≡ self.old.log) × (self.new.untils ≡ self.old.untils) }
    {
        self.started = Some(ports.copied());
        if self.outages.fails() {
            return Err(Failed);
        }
        self.posts = match ports {
            Ports::Posts { pairs, sessions: _ } => pairs.len() as u8,
            Ports::Car { .. } => 1,
        };
        Ok(())
    }

    fn next(&mut self, until: u64, room: &mut [u8]) -> Result<Heard, Failed>
        requires { length room.old ≡ 4096 }
        ensures heard { IfOk result (λ heard. GrowsByOne self.old.log.past self.new.log.past (entry.Heard heard (bytes_of heard.what room.new))) }
        ensures lost { OnErr result (GrowsByOne self.old.log.past self.new.log.past entry.Lost) }
        ensures post { IfOk result (λ heard. IsOfPosts self.old.posts heard.what) }
        ensures count { IfOk result (λ heard. HasCount heard.what) }
        ensures untils { IsSome self.new.log.past → reverse self.new.untils.items ≡ until ∷ reverse self.old.untils.items }
        ensures started { self.new.started ≡ self.old.started }
        ensures posts { self.new.posts ≡ self.old.posts }
        ensures faults { IsFault self.old.outages.faults self.new.outages.faults result }
        ensures outage { Counts self.old.outages (is_err result) self.new.outages }
        ensures room { IfOk result (λ heard. NotesHearing self.old self.new (length (bytes_of heard.what room.new))) }
        ensures room_lost { OnErr result (NotesHearing self.old self.new 0) }
    {
        self.keep_until(until);
        if self.fails() {
            self.lose();
            return Err(Failed);
        }
        let heard = self.take(room);
        self.keep(&heard, room);
        Ok(heard)
    }

    fn send(&mut self, post: u8, bytes: &[u8]) -> Result<(), Failed>
        ensures sent { GrowsByOne self.old.log.past self.new.log.past (entry.Sent post bytes.now (is_ok result)) }
        ensures untils { IsSome self.new.log.past → reverse self.new.untils.items ≡ reverse self.old.untils.items }
        ensures started { self.new.started ≡ self.old.started }
        ensures posts { self.new.posts ≡ self.old.posts }
        ensures faults { IsFault self.old.outages.faults self.new.outages.faults result }
        ensures outage { Counts self.old.outages (is_err result) self.new.outages }
        ensures room { Notes self.old self.new (length bytes.now) }
    {
        let taken = !self.outages.fails();
        self.log.note(Note::Sent { post, taken }, bytes);
        outcome(taken)
    }

    fn answer(&mut self, post: u8, bytes: &[u8]) -> Result<(), Failed>
        ensures answered { GrowsByOne self.old.log.past self.new.log.past (entry.Answered post bytes.now (is_ok result)) }
        ensures untils { IsSome self.new.log.past → reverse self.new.untils.items ≡ reverse self.old.untils.items }
        ensures started { self.new.started ≡ self.old.started }
        ensures posts { self.new.posts ≡ self.old.posts }
        ensures faults { IsFault self.old.outages.faults self.new.outages.faults result }
        ensures outage { Counts self.old.outages (is_err result) self.new.outages }
        ensures room { Notes self.old self.new (length bytes.now) }
    {
        let taken = !self.outages.fails();
        self.log.note(Note::Answered { post, taken }, bytes);
        outcome(taken)
    }

    fn drive(&mut self, post: u8, order: Order) -> Result<(), Failed>
        ensures drove { GrowsByOne self.old.log.past self.new.log.past (entry.Drove post order (is_ok result)) }
        ensures untils { IsSome self.new.log.past → reverse self.new.untils.items ≡ reverse self.old.untils.items }
        ensures started { self.new.started ≡ self.old.started }
        ensures posts { self.new.posts ≡ self.old.posts }
        ensures faults { IsFault self.old.outages.faults self.new.outages.faults result }
        ensures outage { Counts self.old.outages (is_err result) self.new.outages }
        ensures room { Notes self.old self.new 0 }
    {
        let taken = !self.outages.fails();
        self.log.note(Note::Drove { post, order, taken }, &[]);
        outcome(taken)
    }

    fn dial(&mut self, port: u16) -> Result<(), Failed>
        ensures dialed { GrowsByOne self.old.log.past self.new.log.past (entry.Dialed port (is_ok result)) }
        ensures untils { IsSome self.new.log.past → reverse self.new.untils.items ≡ reverse self.old.untils.items }
        ensures started { self.new.started ≡ self.old.started }
        ensures posts { self.new.posts ≡ self.old.posts }
        ensures faults { IsFault self.old.outages.faults self.new.outages.faults result }
        ensures outage { Counts self.old.outages (is_err result) self.new.outages }
        ensures room { Notes self.old self.new 0 }
    {
        let taken = !self.outages.fails();
        self.log.note(Note::Dialed { port, taken }, &[]);
        outcome(taken)
    }

    fn end(&mut self, post: u8, cause: u8)
        ensures ended { GrowsByOne self.old.log.past self.new.log.past (entry.Ended post cause) }
        ensures untils { IsSome self.new.log.past → reverse self.new.untils.items ≡ reverse self.old.untils.items }
        ensures started { self.new.started ≡ self.old.started }
        ensures posts { self.new.posts ≡ self.old.posts }
        ensures faults { self.new.outages.faults ≡ self.old.outages.faults }
        ensures outages { self.new.outages ≡ self.old.outages }
        ensures room { Notes self.old self.new 0 }
    {
        self.log.note(Note::Ended { post, cause }, &[]);
    }
}

/// Copies bytes to the front of the room, as many as it has.
fn put(bytes: &[u8], room: &mut [u8])
    ensures front { length bytes.now ≤ length room.old → take (length bytes.now) room.new ≡ bytes.now }
{
    if bytes.len() <= room.len() {
        room[..bytes.len()].copy_from_slice(bytes);
    }
}

/// The moment of the last event, 0 where there is none.
fn last_moment(script: &[Scripted]) -> u64
    ensures { result ≡ moment_of script.now }
{
    match script.last() {
        None => 0,
        Some(scripted) => scripted.heard.at,
    }
}

/// Whether an event is of a started post and has the bytes that it says.
fn fits(scripted: &Scripted, posts: u8) -> bool
    ensures { IsTrue result ↔ Fits posts scripted.now }
{
    let len = scripted.bytes.bytes().len();
    match scripted.heard.what {
        What::Came { post, token: _ } | What::Gone { post } | What::Plant { post, event: _ } => {
            1 <= post && post <= posts
        }
        What::Bytes { post, n } => {
            1 <= post && post <= posts && n as usize == len && 1 <= n && n <= 4096
        }
        What::Datagram { post, n } => {
            1 <= post && post <= posts && n as usize == len && n <= 4096
        }
        What::Tick | What::Over => true,
    }
}

/// The place of the first event from a place on that fits.
fn next_fitting(script: &[Scripted], at: usize, posts: u8) -> Option<usize>
    ensures found { IfSome result (λ k. FitsAt posts script.now at k) }
    ensures none { IfNone result (NoneFits posts script.now at (length script.now)) }
{
    for k in at..script.len() {
        if fits(&script[k], posts) {
            return Some(k);
        }
    }
    None
}
