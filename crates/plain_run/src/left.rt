//! Runs with files and outputs in memory.

use crate::plain::run;
use charge_run::{Status, WordList};
use charge_world::{MemorySink, MemorySource, NamedFile, NoMemory, Piece, Wire};
use std::alloc::Global;

/// Bytes of an output.
const OUTPUT: u32 = 100_000;

/// Bytes of a trace.
const TRACE: u32 = 1_000_000;

/// The writes that fail, by their numbers on the output and on the trace, counted from 1.
#[derive(Drop)]
pub struct Failing {
    pub out: Vec<u32>,
    pub trace: Vec<u32>,
}

impl Failing {
    /// No write fails.
    pub fn none(alloc: Global) -> Failing {
        Failing {
            out: Vec::new(alloc),
            trace: Vec::new(alloc),
        }
    }
}

/// What a run leaves: its status, the first 100,000 bytes of its output, and the first million of its trace.
#[derive(Drop)]
pub struct Left {
    pub status: Status,
    pub out: MemorySink,
    pub trace: MemorySink,
}

/// What a run of these words leaves, over these files, each by its name and bytes, and this wire.
pub fn left_by<W: Wire>(
    alloc: Global,
    words: &[&str],
    files: &[(&str, &[u8])],
    failing: Failing,
    wire: &mut W,
) -> Result<Left, NoMemory> {
    let words = list_of(alloc, words)?;
    let mut files = source_of(alloc, files)?;
    let mut out = MemorySink::make(alloc, failing.out, OUTPUT)?;
    let mut trace = MemorySink::make(alloc, failing.trace, TRACE)?;
    let status = run(alloc, &words, &mut files, &mut out, &mut trace, wire);
    Ok(Left { status, out, trace })
}

/// These words.
fn list_of(alloc: Global, words: &[&str]) -> Result<WordList, NoMemory> {
    let mut list = Vec::new(alloc);
    for word in words {
        list.push(String::from_str(alloc, word)?)?;
    }
    Ok(WordList::of(list))
}

/// These files.
fn source_of(alloc: Global, files: &[(&str, &[u8])]) -> Result<MemorySource, NoMemory> {
    let mut list = Vec::new(alloc);
    for (name, bytes) in files {
        list.push(NamedFile {
            name: Piece::of(name.as_bytes().to_vec(alloc)?),
            bytes: Piece::of(bytes.to_vec(alloc)?),
        })?;
    }
    Ok(MemorySource::of(list, Vec::new(alloc)))
}
