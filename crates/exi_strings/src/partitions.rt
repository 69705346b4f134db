//! The table and its partitions.

ghost use Rattle.std.specs.Prelude.{◌≡◌, ◌+◌, ◌<◌, ◌≤◌, ◌^◌, ◌↔◌, [], ◌∷◌, ◌++◌, length, IfOk, OnOk, OnErr, IsErr, slice_get};
ghost use Rattle.std.specs.Option.{option_copied};
ghost use Rattle.exi_strings.specs.Table.{global_of, local_of};

use std::alloc::{AllocError, Global};
use std::marker::Model;

/// The table has as many entries as it may have.
#[derive(Clone, Copy, Debug, PartialEq, Eq)]
pub struct TableFull;

/// The value partitions of a document (7.3.3): strings, or the places where they stand, each with the name of
/// its element or attribute. Contracts see the list of the entries, and how many there may be.
#[derive(Drop)]
pub struct Partitions<T> {
    entries: Vec<(u16, T)>,
    cap: u32,
}

impl<T> Model for Partitions<T> {
    ghost use Rattle.std.specs.Prelude.{◌<◌, ◌≤◌, ◌^◌};
    ghost use Rattle.std.specs.Vec.{vec_len, vec_capacity};
    ghost use Rattle.exi_strings.specs.Table.{Table, table_code};

    ghost Value = { Table T };

    ghost coded = { table_code T.code };

    ghost view = { λ p. record { entries = p.entries.items; cap = p.cap } };

    ghost invariant = { λ p. (vec_len p.entries ≤ p.cap) × (p.cap ≤ vec_capacity p.entries) × (p.cap < 2 ^ 32) };
}

impl<T: Drop> Partitions<T> {
    /// An empty table of at most `cap` entries. It takes all its memory here.
    pub fn make(alloc: Global, cap: u32) -> Result<Partitions<T>, AllocError>
        ensures { IfOk result (λ table. table ≡ record { entries = []; cap = cap }) }
    {
        let entries = Vec::with_capacity(alloc, cap as usize)?;
        Ok(Partitions { entries, cap })
    }

    /// Leaves no entry.
    pub fn clear(&mut self)
        ensures { self.new ≡ record { entries = []; cap = self.old.cap } }
    {
        self.entries.clear();
    }

    /// All entries, in the order in which they were entered.
    pub fn entries(&self) -> &[(u16, T)]
        ensures entries { result.now ≡ self.now.entries }
        ensures bound { length result.now ≤ self.now.cap }
        ensures range { length result.now < 2 ^ 32 }
    {
        self.entries.as_slice()
    }

    /// How many entries the global partition has.
    pub fn globals(&self) -> u32
        ensures count { result ≡ length (global_of self.now.entries) }
        ensures entries { result ≡ length self.now.entries }
        ensures bound { result ≤ self.now.cap }
    {
        let entries = self.entries.as_slice();
        entries.len() as u32
    }

    /// How many entries the local partition of a name has.
    pub fn locals(&self, name: u16) -> u32
        ensures { result ≡ length (local_of name self.now.entries) }
    {
        local_count(self.entries.as_slice(), name)
    }

    /// An entry of the global partition, counted from 0; `None` exactly where it has no such entry.
    pub fn global(&self, i: u32) -> Option<&T>
        ensures { option_copied result ≡ slice_get (global_of self.now.entries) i }
    {
        global_at(self.entries.as_slice(), i)
    }

    /// An entry of the local partition of a name, counted from 0; `None` exactly where it has no such entry.
    pub fn local(&self, name: u16, i: u32) -> Option<&T>
        ensures { option_copied result ≡ slice_get (local_of name self.now.entries) i }
    {
        local_at(self.entries.as_slice(), name, i)
    }

    /// Enters an item of a name behind the others; `TableFull` exactly where the table has `cap` entries.
    pub fn enter(&mut self, name: u16, item: T) -> Result<(), TableFull>
        ensures ok { OnOk result (self.new ≡ record { entries = self.old.entries ++ (name, item) ∷ []; cap = self.old.cap }) }
        ensures full { IsErr result ↔ (length self.old.entries ≡ self.old.cap) }
        ensures stays { OnErr result (self.new ≡ self.old) }
    {
        if self.entries.len() >= self.cap as usize {
            return Err(TableFull);
        }
        match self.entries.push((name, item)) {
            Ok(()) => Ok(()),
            Err(_) => unreachable!(),
        }
    }
}

fn local_count<T>(entries: &[(u16, T)], name: u16) -> u32
    requires { length entries.now < 2 ^ 32 }
    ensures { result ≡ length (local_of name entries.now) }
{
    let mut count = 0;
    for entry in entries {
        if entry.0 == name {
            count += 1;
        }
    }
    count
}

fn global_at<T>(entries: &[(u16, T)], i: u32) -> Option<&T>
    ensures { option_copied result ≡ slice_get (global_of entries.now) i }
{
    match entries.get(i as usize) {
        Some(entry) => Some(&entry.1),
        None => None,
    }
}

fn local_at<T>(entries: &[(u16, T)], name: u16, i: u32) -> Option<&T>
    ensures { option_copied result ≡ slice_get (local_of name entries.now) i }
{
    let mut left = i;
    for entry in entries {
        if entry.0 == name {
            if left == 0 {
                return Some(&entry.1);
            }
            left -= 1;
        }
    }
    None
}
