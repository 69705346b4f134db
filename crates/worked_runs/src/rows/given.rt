//! What the lines of a row give to a run.

use anyhow::Result;
use charge_world::{Entry, MemorySink, MemorySource, MemoryWire, NamedFile, Piece, Scripted};
use plain_run::WordList;
use row_texts::{lines_behind, numbers_behind};
use std::alloc::Global;
use trace_text::read_numbered;

/// Room for the entries of a wire.
const ENTRIES: u32 = 400;

/// Bytes of the entries of a wire, and bytes of a sink.
const BYTES: u32 = 100_000;

/// How the lines begin that are none of a trace.
const MARKS: [&str; 14] = [
    "#",
    "words ",
    "word ",
    "plan ",
    "recorded ",
    "fails wire ",
    "fails files ",
    "fails out ",
    "fails trace ",
    "unheard ",
    "until ",
    "driven ",
    "out ",
    "status ",
];

/// Whether a line is one of the trace.
pub(crate) fn is_traced(line: &str) -> bool {
    !line.is_empty() && !MARKS.iter().any(|mark| line.starts_with(*mark))
}

/// The words of the command.
pub(crate) fn words_in(alloc: Global, lines: &str) -> Result<WordList> {
    let mut words = Vec::new(alloc);
    for line in lines.lines() {
        if let Some(word) = line.strip_prefix("word ") {
            words.push(String::from_str(alloc, word)?)?;
        } else if let Some(some) = line.strip_prefix("words ") {
            add_words(alloc, &mut words, some)?;
        }
    }
    Ok(WordList::of(words))
}

/// Adds words with one space between.
fn add_words(alloc: Global, words: &mut Vec<String>, some: &str) -> Result<()> {
    for word in some.split(' ') {
        words.push(String::from_str(alloc, word)?)?;
    }
    Ok(())
}

/// The files `plan` and `recorded`, and the calls on them that fail.
pub(crate) fn files_in(alloc: Global, lines: &str) -> Result<MemorySource> {
    let plan = file_of(alloc, b"plan", lines_behind(alloc, lines, "plan ")?)?;
    let recorded = file_of(alloc, b"recorded", lines_behind(alloc, lines, "recorded ")?)?;
    let files = vec![in alloc; plan, recorded]?;
    Ok(MemorySource::of(files, numbers_behind(alloc, lines, "fails files ")?))
}

/// A file of this name and text.
fn file_of(alloc: Global, name: &[u8], text: String) -> Result<NamedFile> {
    Ok(NamedFile {
        name: Piece::of(name.to_vec(alloc)?),
        bytes: Piece::of(text.into_bytes()),
    })
}

/// A sink, whose writes that fail stand behind a mark.
pub(crate) fn sink_in(alloc: Global, lines: &str, mark: &str) -> Result<MemorySink> {
    Ok(MemorySink::make(alloc, numbers_behind(alloc, lines, mark)?, BYTES)?)
}

/// A wire that brings what is heard, and the calls of it that fail.
pub(crate) fn wire_in(alloc: Global, lines: &str) -> Result<MemoryWire> {
    let script = script_in(alloc, lines)?;
    let failing = numbers_behind(alloc, lines, "fails wire ")?;
    Ok(MemoryWire::make(alloc, script, failing, ENTRIES, BYTES)?)
}

/// What the wire brings.
fn script_in(alloc: Global, lines: &str) -> Result<Vec<Scripted>> {
    let mut script = Vec::new(alloc);
    for line in lines.lines() {
        if let Some(heard) = line.strip_prefix("unheard ") {
            let line = format!(in alloc; "1 heard {heard}\n")?;
            add_heard(alloc, &mut script, line.as_bytes())?;
        } else if is_traced(line) && !line.starts_with("v2g-trace ") {
            let line = format!(in alloc; "{line}\n")?;
            add_heard(alloc, &mut script, line.as_bytes())?;
        }
    }
    Ok(script)
}

/// Adds what a numbered line of a trace brings, if anything was heard there.
fn add_heard(alloc: Global, script: &mut Vec<Scripted>, line: &[u8]) -> Result<()> {
    let (_, entry) = read_numbered(alloc, line, 0)?;
    if let Entry::Heard { heard, bytes } = entry {
        script.push(Scripted { heard, bytes })?;
    }
    Ok(())
}
