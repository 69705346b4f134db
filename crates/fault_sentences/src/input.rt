//! At which place an input is refused.

use std::fmt;

/// The greatest number of hexadecimal digits of a payload.
const MOST_DIGITS: u64 = 131_072;

/// The place in the line `input N`.
pub fn place_in(line: &[u8]) -> Option<u64> {
    let text = str::from_utf8(line).ok()?;
    text.strip_prefix("input ")?.trim_end().parse().ok()
}

/// The character at a place.
fn char_at(text: &str, place: u64) -> Option<char> {
    text.chars().nth(usize::try_from(place).ok()?)
}

/// How many characters a text has.
fn count_of(text: &str) -> u64 {
    text.chars().count() as u64
}

/// A place at which a payload in hexadecimal digits is refused.
#[derive(Clone, Copy)]
pub struct DecodePlace<'a> {
    pub dialect: &'a str,
    pub hex: &'a str,
    pub place: u64,
}

impl fmt::Display for DecodePlace<'_> {
    fn fmt<W: fmt::Write>(&self, f: &mut fmt::Formatter<W>) -> fmt::Result {
        let count = count_of(self.hex);
        if count % 2 == 1 {
            return write!(f, "HEX has {count} digits: each byte wants two.");
        }
        if let Some(other) = self.hex.chars().find(|c| !c.is_ascii_hexdigit()) {
            return write!(
                f,
                "HEX has {other:?} at place {}, counted from 0: it wants digits 0 to 9 and a to f alone.",
                self.place
            );
        }
        if count > MOST_DIGITS {
            return write!(
                f,
                "HEX has {count} digits: a payload has {MOST_DIGITS} at most."
            );
        }
        write!(
            f,
            "At bit {} of the payload, bit {} of its byte {} (all from 0), begins what can't stand there in a message of `{}`, or the payload ends inside it: it has {} bytes. A frame's eight bytes in front are no part of it.",
            self.place,
            self.place % 8,
            self.place / 8,
            self.dialect,
            count / 2
        )
    }
}

/// A place at which a tree text is refused.
#[derive(Clone, Copy)]
pub struct EncodePlace<'a> {
    pub dialect: &'a str,
    pub text: &'a str,
    pub place: u64,
}

impl fmt::Display for EncodePlace<'_> {
    fn fmt<W: fmt::Write>(&self, f: &mut fmt::Formatter<W>) -> fmt::Result {
        match char_at(self.text, self.place) {
            Some(c) => write!(
                f,
                "At character {} of TEXT, counted from 0, stands {c:?}, which no message of `{}` has there.",
                self.place, self.dialect
            ),
            None => write!(
                f,
                "TEXT ends before the message does, or no payload is written for it: a child of `{}` is missing, or a number is out of its bounds.",
                self.dialect
            ),
        }
    }
}
