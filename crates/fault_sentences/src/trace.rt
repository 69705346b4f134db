//! Lines of a trace in a file.

use arrayvec::ArrayVec;
use charge_world::Source;

/// The first bytes of a line.
pub type Line = ArrayVec<u8, 100>;

/// The line feed.
const LINE_FEED: u8 = 10;

/// Reads lines one after another, and keeps the first bytes of each.
#[derive(Drop)]
struct Reading {
    line: Line,
    number: u64,
    /// The moment of the last thing heard in the lines before.
    heard: Option<u64>,
}

impl Reading {
    fn new() -> Reading {
        Reading {
            line: ArrayVec::new(),
            number: 1,
            heard: None,
        }
    }

    /// Reads a byte. True where it ends a line, which is to be let go before the next byte.
    fn take(&mut self, byte: u8) -> bool {
        if byte == LINE_FEED {
            return true;
        }
        let _ = self.line.try_push(byte);
        false
    }

    fn next_line(&mut self) {
        self.heard = heard_at(self.line.as_slice()).or(self.heard);
        self.line.clear();
        self.number = self.number.saturating_add(1);
    }
}

/// Which line is looked for.
#[derive(Clone, Copy)]
enum Wanted {
    /// That with this number, from 1.
    Number(u64),
    /// The first that tells of a send.
    Sent,
}

impl Wanted {
    fn is(self, reading: &Reading) -> bool {
        match self {
            Wanted::Number(number) => reading.number == number,
            Wanted::Sent => sent_in(reading.line.as_slice()).is_some(),
        }
    }
}

/// What was read of a file up to the line that is wanted.
fn find_line<F: Source>(files: &mut F, name: &str, wanted: Wanted) -> Option<Reading> {
    files.begin(name).ok()?;
    let mut reading = Reading::new();
    let mut room = [0u8; 4096];
    for _ in 0..u64::MAX {
        let count = files.read(&mut room).ok()?;
        if count == 0 {
            break;
        }
        if find_in(&mut reading, &room[..count], wanted) {
            return Some(reading);
        }
    }
    if wanted.is(&reading) {
        Some(reading)
    } else {
        None
    }
}

/// Reads these bytes, and no further once the line that is wanted has ended.
fn find_in(reading: &mut Reading, bytes: &[u8], wanted: Wanted) -> bool {
    for byte in bytes {
        if reading.take(*byte) {
            if wanted.is(reading) {
                return true;
            }
            reading.next_line();
        }
    }
    false
}

/// The first bytes of the line with this number, from 1, of the file of that name.
pub fn line_in<F: Source>(files: &mut F, name: &str, number: u64) -> Option<Line> {
    Some(find_line(files, name, Wanted::Number(number))?.line)
}

/// The same, and the moment of the last thing that was heard before it.
pub(crate) fn numbered_line<F: Source>(
    files: &mut F,
    name: &str,
    number: u64,
) -> Option<(Line, Option<u64>)> {
    let reading = find_line(files, name, Wanted::Number(number))?;
    Some((reading.line, reading.heard))
}

/// Whether the trace in a file is a car's: what it sends first is a request for negotiation.
pub fn is_of_a_car<F: Source>(files: &mut F, name: &str) -> bool {
    match find_line(files, name, Wanted::Sent) {
        Some(reading) => sent_in(reading.line.as_slice()).is_some_and(is_request),
        None => false,
    }
}

/// What stands behind a word in a line, which is its first or has a space before it.
fn behind<'a>(line: &'a [u8], word: &str) -> Option<&'a str> {
    let text = str::from_utf8(line).ok()?;
    let (front, behind) = text.split_once(word)?;
    if !front.is_empty() && !front.ends_with(' ') {
        return None;
    }
    Some(behind)
}

/// The number that a text begins with.
fn first_number(text: &str) -> Option<u64> {
    text.split(' ').next()?.parse().ok()
}

/// The bytes, in hexadecimal digits, of a line that tells of a send: `TURN sent POST BYTES`, in format 1 without the turn.
fn sent_in(line: &[u8]) -> Option<&str> {
    Some(behind(line, "sent ")?.split_once(' ')?.1)
}

/// When something was heard, in milliseconds, by a line that tells of that: `TURN heard MOMENT ..`, in format 1 without the turn.
pub(crate) fn heard_at(line: &[u8]) -> Option<u64> {
    first_number(behind(line, "heard ")?)
}

/// Whether a frame, in hexadecimal digits, holds a request for negotiation: behind eight bytes a payload whose first element is the first of two.
fn is_request(frame: &str) -> bool {
    frame.get(16..20) == Some("8000")
}
