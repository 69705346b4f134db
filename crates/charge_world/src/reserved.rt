//! A list that takes all its memory when it is made.

ghost use Rattle.std.specs.Prelude.{◌≡◌, ◌-◌, ◌<◌, ◌≤◌, ◌↔◌, [], ◌∷◌, ◌++◌, length, IfOk, IsTrue};

use crate::failed::NoMemory;
use std::alloc::Global;
use std::marker::Model;

/// Items, and room for so many more, whose memory was taken before. Contracts see the list and how much room is left.
#[derive(Drop)]
pub(crate) struct Reserved<T> {
    items: Vec<T>,
    left: usize,
}

impl<T> Model for Reserved<T> {
    ghost use Rattle.std.specs.Prelude.{◌+◌, ◌≤◌};
    ghost use Rattle.std.specs.Vec.{vec_len, vec_capacity};
    ghost use Rattle.charge_world.specs.Fakes.{Roomy, roomy_code};

    ghost Value = { Roomy T };

    ghost coded = { roomy_code T.code };

    ghost view = { λ r. record { items = r.items.items; left = r.left } };

    ghost invariant = { λ r. vec_len r.items + r.left ≤ vec_capacity r.items };
}

impl<T: Copy> Reserved<T> {
    /// An empty list with room for so many items.
    pub(crate) fn make(alloc: Global, room: u32) -> Result<Reserved<T>, NoMemory>
        ensures { IfOk result (λ r. r ≡ record { items = []; left = room }) }
    {
        let left = room as usize;
        let items = Vec::with_capacity(alloc, left)?;
        Ok(Reserved { items, left })
    }

    /// Whether so many items more have room.
    pub(crate) fn has_room(&self, n: usize) -> bool
        ensures { IsTrue result ↔ (n ≤ self.now.left) }
    {
        n <= self.left
    }

    /// The items, in the order in which they came.
    pub(crate) fn items(&self) -> &[T]
        ensures { result.now ≡ self.now.items }
    {
        self.items.as_slice()
    }

    /// Adds an item behind the others.
    pub(crate) fn push(&mut self, item: T)
        requires { 0 < self.old.left }
        ensures { self.new ≡ record { items = self.old.items ++ item ∷ []; left = self.old.left - 1 } }
    {
        self.left -= 1;
        match self.items.push(item) {
            Ok(()) => {}
            Err(_) => unreachable!(),
        }
    }

    /// Adds items behind the others.
    pub(crate) fn extend(&mut self, more: &[T])
        requires { length more.now ≤ self.old.left }
        ensures { self.new ≡ record { items = self.old.items ++ more.now; left = self.old.left - length more.now } }
    {
        self.left -= more.len();
        match self.items.extend_from_slice(more) {
            Ok(()) => {}
            Err(_) => unreachable!(),
        }
    }
}
