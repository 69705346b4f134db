//! Bytes that a value owns.

ghost use Rattle.std.specs.Prelude.{◌≡◌};

use std::marker::Model;

/// A list of bytes, as they came, went out or stand in a file. Contracts see the list.
#[derive(Drop)]
pub struct Piece {
    bytes: Vec<u8>,
}

impl Model for Piece {
    ghost use Rattle.std.specs.Prelude.{ℕ, List};

    ghost Value = { List ℕ };

    ghost view = { λ p. p.bytes.items };
}

impl Piece {
    /// The piece with these bytes.
    pub fn of(bytes: Vec<u8>) -> Piece
        ensures { result ≡ bytes.items }
    {
        Piece { bytes }
    }

    /// Its bytes.
    pub fn bytes(&self) -> &[u8]
        ensures { result.now ≡ self.now }
    {
        self.bytes.as_slice()
    }

    /// Its bytes in the buffer that it was made of, so that one buffer serves for many pieces.
    pub fn into_bytes(self) -> Vec<u8>
        ensures { result.items ≡ self }
    {
        self.bytes
    }
}
