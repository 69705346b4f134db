//! Vectors of a codec.

ghost use Rattle.std.specs.Prelude.{◌≡◌, ◌++◌, ◌∷◌, IfSome};

use hex::FromHexError;
use std::alloc::Global;

/// A line of a file of vectors: a mark, a payload in hexadecimal, and what is to come of it, with one space between.
#[derive(Clone, Copy)]
pub struct Vector<'a> {
    pub mark: &'a str,
    /// In hexadecimal; `-` is no bytes.
    pub payload: &'a str,
    pub answer: &'a str,
}

impl<'a> Vector<'a> {
    /// The vector of a line; `None` where it has fewer than three words.
    pub fn of(line: &'a str) -> Option<Vector<'a>> {
        let (mark, rest) = line.split_once(' ')?;
        let (payload, answer) = rest.split_once(' ')?;
        Some(Vector {
            mark,
            payload,
            answer,
        })
    }

    /// The bytes of its payload.
    pub fn bytes(&self, alloc: Global) -> Result<Vec<u8>, FromHexError> {
        bytes_of(alloc, self.payload)
    }
}

/// The bytes of a text in hexadecimal; of `-`, none.
pub fn bytes_of(alloc: Global, text: &str) -> Result<Vec<u8>, FromHexError> {
    if text == "-" {
        return Ok(Vec::new(alloc));
    }
    hex::decode(alloc, text)
}
