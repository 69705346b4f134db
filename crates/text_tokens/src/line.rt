//! Lines that are written.

ghost use Rattle.std.specs.Prelude.{◌≡◌, ◌+◌, ◌*◌, ◌<◌, ◌≤◌, ◌^◌, ◌++◌, length};
ghost use Rattle.arrayvec.specs.ArrayVec.{array_vec_len};
ghost use Rattle.hex.specs.Hex.{encode_lower};
ghost use Rattle.text_tokens.specs.Words.{text_of, texts_of, line_text, Puts, Writes};

use arrayvec::ArrayVec;
use itoa::Buffer;

/// The room is too small. Nothing was written.
#[derive(Clone, Copy, Debug, PartialEq, Eq)]
pub struct Full {
    /// How many bytes the room is to have.
    pub bytes: u32,
}

/// One word of a line.
#[derive(Clone, Copy)]
pub enum Word<'a> {
    /// A word that stands as it is. It has no space.
    Plain(&'a [u8]),
    /// A number in decimal digits, without a leading zero.
    Number(u64),
    /// Bytes in lower-case hexadecimal.
    Bytes(&'a [u8]),
    /// A number in sixteen digits of lower-case hexadecimal, the highest first.
    Identifier(u64),
}

impl Default for Word<'_> {
    /// The word without a letter.
    fn default() -> Self {
        Word::Plain(b"")
    }
}

/// Puts a text at a place, where the room reaches so far, and gives the place behind it.
fn put(room: &mut [u8], at: usize, text: &[u8]) -> usize
    requires { at < 2 ^ 32 }
    ensures { Puts room.old at room.new result text.now }
{
    let end = at + text.len();
    if end <= room.len() {
        room[at..end].copy_from_slice(text);
    }
    end
}

/// Puts bytes in lower-case hexadecimal.
fn put_hex(room: &mut [u8], at: usize, bytes: &[u8]) -> usize
    requires at { at < 2 ^ 32 }
    requires bytes { 2 * length bytes.now < 2 ^ 32 }
    ensures { Puts room.old at room.new result (encode_lower bytes.now) }
{
    let end = at + 2 * bytes.len();
    if end <= room.len() {
        let _ = hex::encode_to_slice(bytes, &mut room[at..end]);
    }
    end
}

/// Puts a word.
fn put_word(room: &mut [u8], at: usize, word: &Word) -> usize
    requires at { at < 2 ^ 32 }
    requires word { length (text_of word.now) < 2 ^ 32 }
    ensures { Puts room.old at room.new result (text_of word.now) }
{
    match word {
        Word::Plain(text) => put(room, at, text),
        Word::Number(n) => put(room, at, Buffer::new().format(*n).as_bytes()),
        Word::Bytes(bytes) => put_hex(room, at, bytes),
        Word::Identifier(n) => put_hex(room, at, &n.to_be_bytes()),
    }
}

/// Puts words at the front of a room, with one space between each two and a line feed behind them, and gives the place
/// behind it.
fn put_line(room: &mut [u8], words: &[Word]) -> usize
    requires some { 0 < length words.now }
    requires short { length (line_text (texts_of words.now)) < 2 ^ 32 }
    ensures { Puts room.old 0 room.new result (line_text (texts_of words.now)) }
{
    let mut at = 0;
    for word in words {
        let end = put_word(room, at, word);
        at = put(room, end, b" ");
    }
    if at <= room.len() {
        room[at - 1] = b'\n';
    }
    at
}

/// The words of a line that is written, at most eight.
#[derive(Default, Drop)]
pub struct Line<'a> {
    pub words: ArrayVec<Word<'a>, 8>,
}

impl<'a> Line<'a> {
    /// The line with more words behind its own.
    pub fn then(mut self, more: &[Word<'a>]) -> Line<'a>
        requires { array_vec_len self.words + length more.now ≤ 8 }
        ensures { result.words.items ≡ self.entry.words.items ++ more.now }
    {
        let _ = self.words.try_extend_from_slice(more);
        self
    }

    /// Writes the words to the front of a room, with one space between each two and a line feed behind them, and gives
    /// the number of bytes.
    pub fn write(&self, room: &mut [u8]) -> Result<u32, Full>
        requires some { 0 < array_vec_len self.now.words }
        requires fits { length (line_text (texts_of self.now.words.items)) < 2 ^ 32 }
        ensures { Writes (line_text (texts_of self.now.words.items)) room.old room.new result }
    {
        let bytes = put_line(&mut [], self.words.as_slice()) as u32;
        if room.len() < bytes as usize {
            return Err(Full { bytes });
        }
        Ok(put_line(room, self.words.as_slice()) as u32)
    }
}
