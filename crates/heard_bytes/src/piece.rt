//! The bytes of the newest hearing.

ghost use Rattle.std.specs.Prelude.{◌≡◌, ◌≤◌, [], length, IfOk, vec_capacity};

use crate::NoMemory;
use std::alloc::Global;
use std::marker::Model;

/// The most bytes of a hearing.
pub const PIECE: usize = 4096;

/// The bytes of the newest hearing, in memory that is taken once. Contracts see them.
#[derive(Drop)]
pub struct NewestPiece {
    bytes: Vec<u8>,
}

impl Model for NewestPiece {
    ghost use Rattle.std.specs.Prelude.{ℕ, List, ◌≤◌, vec_capacity};

    ghost Value = { List ℕ };

    ghost view = { λ p. p.bytes.items };

    ghost invariant = { λ p. 4096 ≤ vec_capacity p.bytes };
}

impl NewestPiece {
    /// Before anything was heard: no bytes.
    pub fn make(alloc: Global) -> Result<NewestPiece, NoMemory>
        ensures { IfOk result (λ piece. piece ≡ []) }
    {
        Ok(NewestPiece {
            bytes: Vec::with_capacity(alloc, PIECE)?,
        })
    }

    /// These bytes were heard, at most 4,096.
    pub fn set(&mut self, bytes: &[u8])
        requires { length bytes.now ≤ 4096 }
        ensures { self.new ≡ bytes.now }
    {
        self.bytes.clear();
        let _ = self.bytes.extend_from_slice(bytes);
    }

    /// The bytes.
    pub fn bytes(&self) -> &[u8]
        ensures { result.now ≡ self.now }
    {
        self.bytes.as_slice()
    }
}
