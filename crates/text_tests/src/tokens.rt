//! The examples of the calls.

use crate::cases::{Case, all_hold};
use std::alloc::{AllocError, Global};
use text_tokens::{
    Full, Line, Word, Words, before_line_feed, hex_bytes, identifier, is_hex, number,
};

/// What a word is read as: a number, one of 1 to 8, bytes in hexadecimal, or an identifier.
#[derive(Clone, Copy)]
enum Reader {
    Number,
    OneToEight,
    Bytes,
    Identifier,
}

/// A word, and what it is read as.
struct Token(Reader, &'static [u8], &'static str);

/// What a word is read as, and of bytes first whether it is hexadecimal.
fn told(alloc: Global, reader: Reader, word: &[u8]) -> Result<String, AllocError> {
    match reader {
        Reader::Number => format!(in alloc; "{:?}", number(word, 0, u64::MAX)),
        Reader::OneToEight => format!(in alloc; "{:?}", number(word, 1, 8)),
        Reader::Bytes => format!(in alloc; "{} {:?}", is_hex(word), hex_bytes(alloc, word)),
        Reader::Identifier => format!(in alloc; "{:?}", identifier(word)),
    }
}

impl Case for Token {
    fn holds(&self, alloc: Global) -> bool {
        matches!(told(alloc, self.0, self.1), Ok(told) if told.as_str() == self.2)
    }
}

const TOKENS: [Token; 19] = [
    Token(Reader::Number, b"0", "Ok(0)"),
    Token(
        Reader::Number,
        b"18446744073709551615",
        "Ok(18446744073709551615)",
    ),
    Token(Reader::Number, b"18446744073709551616", "Err(Bad)"),
    Token(Reader::Number, b"00", "Err(Bad)"),
    Token(Reader::Number, b"01", "Err(Bad)"),
    Token(Reader::Number, b"+1", "Err(Bad)"),
    Token(Reader::Number, b"-0", "Err(Bad)"),
    Token(Reader::Number, b"", "Err(Bad)"),
    Token(Reader::Number, b"1\xff", "Err(Bad)"),
    Token(Reader::OneToEight, b"9", "Err(Bad)"),
    Token(Reader::OneToEight, b"0", "Err(Bad)"),
    Token(Reader::Bytes, b"", "true Ok([])"),
    Token(Reader::Bytes, b"01feff", "true Ok([1, 254, 255])"),
    Token(Reader::Bytes, b"0A", "false Err(Bad)"),
    Token(Reader::Bytes, b"0", "false Err(Bad)"),
    Token(Reader::Bytes, b"0g", "false Err(Bad)"),
    Token(Reader::Bytes, b"-", "false Err(Bad)"),
    Token(
        Reader::Identifier,
        b"0102030405060708",
        "Ok(72623859790382856)",
    ),
    Token(Reader::Identifier, b"01020304050607", "Err(Bad)"),
];

/// A line is its words with one space between, and needs its room.
fn a_line_is_written() -> bool {
    let line = Line::default().then(&[Word::Plain(b"sent"), Word::Plain(b"8")]);
    let mut room = [7; 8];
    line.write(&mut room[..6]) == Err(Full { bytes: 7 })
        && line.write(&mut room) == Ok(7)
        && &room == b"sent 8\n\x07"
}

/// The words of a line, one after another.
fn words_are_taken() -> bool {
    let mut words = Words::of(b"a  b");
    before_line_feed(b"a  b\n") == Ok(b"a  b")
        && words.next() == Ok(b"a")
        && words.next() == Ok(b"")
        && words.only() == Ok(b"b")
}

#[test]
fn words_have_one_text(rt: HostRuntime) {
    all_hold(&rt, rt.alloc(), &TOKENS);
    assert!(rt; a_line_is_written());
    assert!(rt; words_are_taken());
}
