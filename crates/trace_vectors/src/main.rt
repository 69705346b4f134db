//! Reads the lines of files of vectors, writes each that is read again, and counts what was read, refused and wrong.
//!
//! A file that ends in `.trace` is a trace of format 2, each of whose lines is read and written again alike. A line of
//! another file is `ok LINE` or `no LINE` for a line of format 1, which is read and written again alike, or is refused.
#![tactic(auto)]

use anyhow::Result;
use row_texts::count;
use std::alloc::Global;
use std::{env, fs};
use trace_text::{LineFault, read_line, read_numbered, write_line, write_numbered};

/// How many lines were read, were refused, and had another answer than the file says.
#[derive(Clone, Copy, Debug, Default)]
struct Counts {
    read: u64,
    refused: u64,
    wrong: u64,
}

impl Counts {
    /// Counts a line: `Some(true)` where it was read, `Some(false)` where it was refused, `None` where it was wrong.
    fn add(&mut self, answer: Option<bool>) {
        match answer {
            Some(true) => count(&mut self.read),
            Some(false) => count(&mut self.refused),
            None => count(&mut self.wrong),
        }
    }
}

fn main(rt: HostRuntime) -> Result<()> {
    let mut room = vec![in rt.alloc(); 0u8; 131_300]?;
    for file in env::args(&rt)?.skip(1) {
        let text = fs::read(&rt, file.as_str())?;
        let counts = if file.as_str().ends_with(".trace") {
            trace_counts(rt.alloc(), text.as_slice(), &mut room)
        } else {
            line_counts(rt.alloc(), text.as_slice(), &mut room)
        };
        println!(rt;
            "{} read {} refused {} wrong {}",
            file.as_str(),
            counts.read,
            counts.refused,
            counts.wrong
        )?;
    }
    Ok(())
}

/// The counts of a file of lines, each behind `ok` or `no`.
fn line_counts(alloc: Global, text: &[u8], room: &mut [u8]) -> Counts {
    let mut counts = Counts::default();
    for row in text.split_inclusive(|byte| *byte == b'\n') {
        let (mark, line) = row.split_at(3.min(row.len()));
        let wanted = mark == b"ok ".as_slice();
        let answer = line_answer(alloc, line, room);
        counts.add(answer.filter(|read| *read == wanted));
    }
    counts
}

/// The counts of a trace of format 2.
fn trace_counts(alloc: Global, text: &[u8], room: &mut [u8]) -> Counts {
    let mut counts = Counts::default();
    for (number, line) in text.split_inclusive(|byte| *byte == b'\n').enumerate() {
        if number > 0 {
            counts.add(numbered_answer(alloc, line, room));
        } else if line != b"v2g-trace 2\n".as_slice() {
            counts.add(None);
        }
    }
    counts
}

/// Whether a line of format 1 is read and written again alike, or is refused.
fn line_answer(alloc: Global, line: &[u8], room: &mut [u8]) -> Option<bool> {
    match read_line(alloc, line, 7) {
        Ok(entry) => match write_line(&entry, room) {
            Ok(count) => is_front(line, room, count).then_some(true),
            Err(_) => None,
        },
        Err(fault) => (fault == LineFault::BadLine(7)).then_some(false),
    }
}

/// Whether a line of format 2 is read and written again alike, or is refused.
fn numbered_answer(alloc: Global, line: &[u8], room: &mut [u8]) -> Option<bool> {
    match read_numbered(alloc, line, 7) {
        Ok((hearing, entry)) => match write_numbered(hearing, &entry, room) {
            Ok(count) => is_front(line, room, count).then_some(true),
            Err(_) => None,
        },
        Err(fault) => (fault == LineFault::BadLine(7)).then_some(false),
    }
}

/// Whether a line is the front of a room, of so many bytes.
fn is_front(line: &[u8], room: &[u8], count: u32) -> bool {
    line.len() == count as usize && room.starts_with(line)
}
