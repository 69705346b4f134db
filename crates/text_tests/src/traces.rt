//! The examples of the calls.

use crate::cases::{Case, all_hold};
use std::alloc::{AllocError, Global};
use trace_text::{Full, LineFault, read_line, read_numbered, write_line, write_numbered};

/// A numbered line, and its number, with which it is written again; or it is none.
struct Line(&'static [u8], Option<u64>);

/// A call with so many bytes, all 0.
fn long_line(alloc: Global, call: &[u8], bytes: usize) -> Result<Vec<u8>, AllocError> {
    let mut line = Vec::from_slice(alloc, call)?;
    for _ in 0..bytes {
        line.extend_from_slice(b"00")?;
    }
    line.push(b'\n')?;
    Ok(line)
}

/// Whether a call with so many bytes has a line of this length, which is read or is not.
fn is_long(alloc: Global, call: &[u8], bytes: usize, length: usize, is_read: bool) -> bool {
    let Ok(line) = long_line(alloc, call, bytes) else {
        return false;
    };
    line.len() == length && read_line(alloc, line.as_slice(), 1).is_ok() == is_read
}

/// A line has at most 131,200 bytes.
fn long_lines_are_read(alloc: Global) -> bool {
    is_long(alloc, b"sent 1 ", 65596, 131200, true)
        && is_long(alloc, b"failed sent 1 ", 65593, 131201, false)
}

impl Case for Line {
    fn holds(&self, alloc: Global) -> bool {
        match read_numbered(alloc, self.0, 2) {
            Ok((hearing, entry)) => {
                let mut room = [0u8; 60];
                let Ok(bytes) = write_numbered(hearing, &entry, &mut room) else {
                    return false;
                };
                bytes as usize == self.0.len()
                    && &room[..self.0.len().min(60)] == self.0
                    && self.1 == Some(hearing)
            }
            Err(fault) => fault == LineFault::BadLine(2) && self.1.is_none(),
        }
    }
}

const LINES: [Line; 8] = [
    Line(b"1 heard 0 1 came 0102030405060708\n", Some(1)),
    Line(b"3 ended 1 18\n", Some(3)),
    Line(b"0 dialed 15120\n", Some(0)),
    Line(
        b"18446744073709551615 heard 5 1 plant renew\n",
        Some(18446744073709551615),
    ),
    Line(b"01 lost\n", None),
    Line(b"1  lost\n", None),
    Line(b"lost\n", None),
    Line(b"18446744073709551616 lost\n", None),
];

/// What is no line: a line ends in its one line feed.
const BAD: [&'static [u8]; 5] = [b"lost", b"lost\n\n", b"", b"\n", b"heard 5 1 plant renew\n"];

/// Whether none of these is a line.
fn are_bad(alloc: Global, lines: &[&[u8]]) -> bool {
    for line in lines {
        if !matches!(read_line(alloc, line, 7), Err(LineFault::BadLine(7))) {
            return false;
        }
    }
    true
}

/// A room that is too small stays as it was.
fn a_room_is_left(alloc: Global) -> bool {
    let Ok(ended) = read_line(alloc, b"ended 1 11\n", 1) else {
        return false;
    };
    let mut room = [7u8; 12];
    write_line(&ended, &mut room[..10]) == Err(Full { bytes: 11 })
        && write_numbered(20, &ended, &mut room) == Err(Full { bytes: 14 })
        && room == [7u8; 12]
        && write_line(&ended, &mut room) == Ok(11)
        && &room == b"ended 1 11\n\x07"
}

#[test]
fn lines_are_read_and_written(rt: HostRuntime) {
    all_hold(&rt, rt.alloc(), &LINES);
    assert!(rt; are_bad(rt.alloc(), &BAD));
    assert!(rt; long_lines_are_read(rt.alloc()));
    assert!(rt; a_room_is_left(rt.alloc()));
}
