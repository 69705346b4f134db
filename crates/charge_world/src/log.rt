//! The past that a fake wire keeps, without taking memory for it.

ghost use Rattle.std.specs.Prelude.{◌≡◌, [], length, map, reverse, IfOk, IfSome, Some, None, ◌↔◌, IsTrue};
ghost use Rattle.charge_world.specs.Fakes.{Spends};
ghost use Rattle.charge_world.specs.Outside.{GrowsByOne};
ghost use Rattle.charge_world.specs.Logs.{entry_with, entry_of, AllFit};

use crate::entry::Entry;
use crate::failed::NoMemory;
use crate::heard::Heard;
use crate::piece::Piece;
use crate::ports::Order;
use crate::reserved::Reserved;
use std::alloc::Global;
use std::marker::Model;

/// An entry without its bytes.
#[derive(Clone, Copy)]
pub(crate) enum Note {
    Heard(Heard),
    Lost,
    Sent { post: u8, taken: bool },
    Answered { post: u8, taken: bool },
    Drove { post: u8, order: Order, taken: bool },
    Dialed { port: u16, taken: bool },
    Ended { post: u8, cause: u8 },
}

/// A note and where its bytes lie.
#[derive(Clone, Copy)]
struct Kept {
    note: Note,
    from: usize,
    len: usize,
}

/// Entries with their bytes. Contracts see the past, the newest entry first, or none once the room was used up, and the room
/// that is left.
#[derive(Drop)]
pub(crate) struct Log {
    kept: Reserved<Kept>,
    bytes: Reserved<u8>,
    full: bool,
}

impl Model for Log {
    ghost use Rattle.charge_world.specs.Fakes.{Logged};

    ghost Value = { Logged };

    ghost use Rattle.charge_world.specs.Logs.{past_of, AllFit};

    ghost view = { λ l. record { past = past_of l.full l.bytes.items l.kept.items; entries = l.kept.left; bytes = l.bytes.left } };

    ghost invariant = { λ l. AllFit l.bytes.items l.kept.items };
}

impl Log {
    /// An empty past, with room for so many entries and bytes.
    pub(crate) fn make(alloc: Global, entries: u32, bytes: u32) -> Result<Log, NoMemory>
        ensures { IfOk result (λ l. l ≡ record { past = Some []; entries = entries; bytes = bytes }) }
    {
        Ok(Log {
            kept: Reserved::make(alloc, entries)?,
            bytes: Reserved::make(alloc, bytes)?,
            full: false,
        })
    }

    /// Adds an entry where it has room, and else is full from now on.
    pub(crate) fn note(&mut self, note: Note, bytes: &[u8])
        ensures grows { GrowsByOne self.old.past self.new.past (entry_with note bytes.now) }
        ensures room { Spends self.old self.new (length bytes.now) }
    {
        if self.full || !self.kept.has_room(1) || !self.bytes.has_room(bytes.len()) {
            self.full = true;
            return;
        }
        let from = self.bytes.items().len();
        self.bytes.extend(bytes);
        let len = bytes.len();
        self.kept.push(Kept { note, from, len });
    }

    /// The entries, the oldest first.
    pub(crate) fn entries(&self, alloc: Global) -> Result<Vec<Entry>, NoMemory>
        ensures { IfOk result (λ v. IfSome self.now.past (λ past. past ≡ reverse v.items)) }
    {
        entries(alloc, self.kept.items(), self.bytes.items())
    }

    /// Is full from now on.
    pub(crate) fn close(&mut self)
        ensures { self.new ≡ record self.old { past = None } }
    {
        self.full = true;
    }

    /// Whether the room was used up.
    pub(crate) fn is_full(&self) -> bool
        ensures { IsTrue result ↔ (self.now.past ≡ None) }
    {
        self.full
    }
}

/// The entries of these notes, whose bytes lie in `bytes`.
fn entries(alloc: Global, kept: &[Kept], bytes: &[u8]) -> Result<Vec<Entry>, NoMemory>
    requires { AllFit bytes.now kept.now }
    ensures { IfOk result (λ v. v.items ≡ map (entry_of bytes.now) kept.now) }
{
    let mut entries = Vec::with_capacity(alloc, kept.len())?;
    for one in kept {
        entries.push(entry(alloc, *one, &bytes[one.from..one.from + one.len])?)?;
    }
    Ok(entries)
}

/// The entry of a note with these bytes.
fn entry(alloc: Global, kept: Kept, bytes: &[u8]) -> Result<Entry, NoMemory>
    ensures { IfOk result (λ e. e ≡ entry_with kept.note bytes.now) }
{
    Ok(match kept.note {
        Note::Heard(heard) => Entry::Heard {
            heard,
            bytes: Piece::of(Vec::from_slice(alloc, bytes)?),
        },
        Note::Lost => Entry::Lost,
        Note::Sent { post, taken } => Entry::Sent {
            post,
            bytes: Piece::of(Vec::from_slice(alloc, bytes)?),
            taken,
        },
        Note::Answered { post, taken } => Entry::Answered {
            post,
            bytes: Piece::of(Vec::from_slice(alloc, bytes)?),
            taken,
        },
        Note::Drove { post, order, taken } => Entry::Drove { post, order, taken },
        Note::Dialed { port, taken } => Entry::Dialed { port, taken },
        Note::Ended { post, cause } => Entry::Ended { post, cause },
    })
}
