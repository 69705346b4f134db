//! A whole trace.

ghost use Rattle.std.specs.Prelude.{◌≡◌, ◌≢◌, ℕ, List, [], ◌++◌, IfOk, IfErr, MatchOption, MatchResult, reverse};
ghost use Rattle.charge_world.specs.declared.entry.Entry.{Entry};
ghost use Rattle.trace_reading.specs.Readings.{first_line_in, Tells, IsFirstBad};
ghost use Rattle.trace_reading.specs.Lines.{IsReadTo, IsBadAt};

use crate::cuts::cut_line;
use crate::format::Format;
use crate::next::{behind, next_entry};
use crate::standing::Standing;
use charge_world::Entry;
use std::alloc::Global;
use trace_text::LineFault;

/// The format that the first line of a text names, and what is behind that line.
fn format_of(text: &[u8]) -> Option<(Format, &[u8])>
    ensures { MatchOption result ((format : Format) (more : List ℕ) → text.now ≢ first_line_in format ++ more) (λ found. text.now ≡ first_line_in found.0 ++ found.1.now) }
{
    if let Some(lines) = text.strip_prefix(b"v2g-trace 1\n") {
        return Some((Format::Plain, lines));
    }
    let lines = text.strip_prefix(b"v2g-trace 2\n")?;
    Some((Format::Numbered, lines))
}

/// Reads the lines behind the first one.
fn read_lines(
    alloc: Global,
    format: Format,
    posts: u8,
    lines: &[u8],
) -> Result<Vec<Entry>, LineFault>
    ensures read { IfOk result (λ entries. IsReadTo format posts lines.now (reverse entries.items) []) }
    ensures bad { IfErr result (λ fault. (number : ℕ) → fault ≡ LineFault.BadLine number → IsBadAt format posts lines.now number) }
{
    let mut entries = Vec::new(alloc);
    let mut standing = Standing {
        format,
        posts,
        hearings: 0,
        is_over: false,
    };
    let mut rest = lines;
    while !rest.is_empty() {
        let (line, more) = cut_line(rest);
        let number = entries.len() as u64 + 2;
        let entry = next_entry(alloc, &standing, line, number)?;
        standing = behind(&standing, &entry);
        if entries.push(entry).is_err() {
            return Err(LineFault::Memory);
        }
        rest = more;
    }
    Ok(entries)
}

/// Reads a whole trace of format 1 or 2 (own) whose posts are from 1 to `posts`: its entries, the oldest first.
///
/// A text that is no past's isn't read: the fault names its first line, counted from 1, that is outside the grammar. Where memory runs
/// out, the answer may be `Memory` for any text.
pub fn read_trace(alloc: Global, text: &[u8], posts: u8) -> Result<Vec<Entry>, LineFault>
    ensures read { IfOk result (λ entries. Tells posts text.now (reverse entries.items)) }
    ensures readable { (past : List Entry) → Tells posts text.now past → MatchResult result (λ entries. reverse entries.items ≡ past) (λ fault. fault ≡ LineFault.Memory) }
    ensures bad { IfErr result (λ fault. (number : ℕ) → fault ≡ LineFault.BadLine number → IsFirstBad posts text.now number) }
{
    match format_of(text) {
        None => Err(LineFault::BadLine(1)),
        Some((format, lines)) => read_lines(alloc, format, posts, lines),
    }
}
