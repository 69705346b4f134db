//! The bytes under way to an end.

ghost use Rattle.std.specs.Prelude.{◌≡◌, ◌≤◌, ◌+◌, ◌++◌, [], drop, length, IfOk, vec_capacity, vec_len};
ghost use Rattle.pipe_spec.specs.Turns.{is_none};

use crate::NoMemory;
use endpoint::FRAME;
use std::alloc::Global;
use std::marker::Model;

/// The bytes under way to an end, the first to be heard first, in memory that is taken once. Contracts see them.
#[derive(Drop)]
pub struct Way {
    bytes: Vec<u8>,
}

impl Model for Way {
    ghost use Rattle.std.specs.Prelude.{ℕ, List, ◌≤◌, vec_capacity, vec_len};

    ghost Value = { List ℕ };

    ghost view = { λ w. w.bytes.items };

    ghost invariant = { λ w. (1032 ≤ vec_capacity w.bytes) × (vec_len w.bytes ≤ 1032) };
}

impl Way {
    /// A way on which nothing is.
    pub fn make(alloc: Global) -> Result<Way, NoMemory>
        ensures { IfOk result (λ way. way ≡ []) }
    {
        Ok(Way {
            bytes: Vec::with_capacity(alloc, FRAME)?,
        })
    }

    /// The bytes under way.
    pub fn bytes(&self) -> &[u8]
        ensures bytes { result.now ≡ self.now }
        ensures few { length self.now ≤ 1032 }
    {
        self.bytes.as_slice()
    }

    /// Whether nothing is under way.
    pub fn is_empty(&self) -> bool
        ensures { result ≡ is_none self.now }
    {
        self.bytes.is_empty()
    }

    /// These bytes were sent: they go behind those that are under way, where all of them have room.
    pub fn send(&mut self, bytes: &[u8])
        ensures { length self.old + length bytes.now ≤ 1032 → self.new ≡ self.old ++ bytes.now }
    {
        if bytes.len() <= FRAME - self.bytes.len() {
            let _ = self.bytes.extend_from_slice(bytes);
        }
    }

    /// The first n bytes were heard.
    pub fn pass(&mut self, n: usize)
        requires { n ≤ length self.old }
        ensures { self.new ≡ drop n self.old }
    {
        drop_front(&mut self.bytes, n);
    }

    /// Drops what is under way.
    pub fn clear(&mut self)
        ensures { self.new ≡ [] }
    {
        self.bytes.clear();
    }
}

/// Drops the first bytes, and keeps the memory.
fn drop_front(bytes: &mut Vec<u8>, n: usize)
    requires { n ≤ vec_len bytes.old }
    ensures items { bytes.new.items ≡ drop n bytes.old.items }
    ensures capacity { vec_capacity bytes.new ≡ vec_capacity bytes.old }
{
    drop(bytes.drain(..n));
}
