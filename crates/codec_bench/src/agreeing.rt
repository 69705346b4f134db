//! Whether the negotiation's codec agrees with the lines of a file of vectors.
//!
//! Each payload is printed. Of a line that begins with `ok` the text is scanned back, and the message is read, and written into a room of its
//! length and into none shorter.

ghost use Rattle.std.specs.Prelude.{◌≤◌, length};

use anyhow::{Context, Result};
use app_protocol::{PrintFault, Refusal, ScanFault, Table, print, read_app, scan, write_app};
use exi_documents::MOST_ENTRIES;
use row_texts::{Vector, count};
use std::alloc::{AllocError, Global};

/// How many lines of a text agree with the codec, and how many don't.
#[derive(Clone, Copy, Default)]
pub(crate) struct Agreement {
    pub(crate) right: u64,
    pub(crate) wrong: u64,
}

/// Holds the codec against each line of a text.
pub(crate) fn agreement_with(alloc: Global, text: &str) -> Result<Agreement> {
    let mut agreement = Agreement::default();
    for line in text.lines() {
        if is_right(alloc, line)? {
            count(&mut agreement.right);
        } else {
            count(&mut agreement.wrong);
        }
    }
    Ok(agreement)
}

/// Whether the codec answers as a line says.
fn is_right(alloc: Global, line: &str) -> Result<bool> {
    let vector = Vector::of(line).context("a line of two words")?;
    let payload = vector.bytes(alloc)?;
    if payload.len() > 65536 {
        return Ok(false);
    }
    let text = printed(alloc, payload.as_slice())?;
    if text.as_str() != vector.answer {
        return Ok(false);
    }
    if vector.mark != "ok" {
        return Ok(vector.mark == "no");
    }
    let scanned = scanned(alloc, vector.answer)?;
    if scanned.as_str() != vector.payload {
        return Ok(false);
    }
    is_written_back(alloc, payload.as_slice())
}

/// The text of a payload, or why and at which bit it is refused.
fn printed(alloc: Global, payload: &[u8]) -> Result<String, AllocError>
    requires { length payload.now ≤ 65536 }
{
    match print(alloc, payload) {
        Ok(text) => Ok(text),
        Err(PrintFault::Refused(refusal)) => {
            let Refusal { cause, bit } = refusal;
            format!(in alloc; "{cause:?} {bit}")
        }
        Err(PrintFault::Memory) => Err(AllocError),
    }
}

/// The payload of a text in hexadecimal, or the place of its fault.
fn scanned(alloc: Global, text: &str) -> Result<String, AllocError> {
    match scan(alloc, text) {
        Ok(piece) => hex::encode(alloc, piece.bytes()),
        Err(ScanFault::Place(place)) => format!(in alloc; "{place}"),
        Err(ScanFault::Memory) => Err(AllocError),
    }
}

/// Whether the payload is what is written for its message, in a room of its length and in no shorter one.
fn is_written_back(alloc: Global, payload: &[u8]) -> Result<bool>
    requires { length payload.now ≤ 65536 }
{
    let mut table = Table::make(alloc, MOST_ENTRIES)?;
    let mut room = [0xff; 136];
    let count = payload.len();
    if count < 1 || count > 136 {
        return Ok(false);
    }
    let Ok(message) = read_app(payload, &mut table) else {
        return Ok(false);
    };
    let written = write_app(&message, &mut room[..count], &mut table);
    if written != Ok(count as u32) || &room[..count] != payload {
        return Ok(false);
    }
    Ok(write_app(&message, &mut room[..count - 1], &mut table).is_err())
}
