//! One line behind others.

ghost use Rattle.std.specs.Prelude.{◌≡◌, ◌≢◌, ◌⊎◌, ◌↔◌, ◌^◌, ◌<◌, IsTrue, IfOk, IfErr, Err, true, false, ℕ, List, ◌∷◌};
ghost use Rattle.charge_world.specs.declared.entry.Entry.{Entry};
ghost use Rattle.charge_world.specs.Outside.{IsOfPosts};
ghost use Rattle.trace_text.specs.Pasts.{is_hearing, is_last_hearing};
ghost use Rattle.trace_reading.specs.Readings.{IsOf};
ghost use Rattle.trace_reading.specs.Lines.{IsNext, IsLineIn, Stands, line_behind, hearings_with};

use crate::format::Format;
use crate::standing::Standing;
use charge_world::{Entry, What};
use std::alloc::Global;
use trace_text::{LineFault, read_line, read_numbered};

/// Whether something was heard, or that nothing was.
pub fn is_hearing(entry: &Entry) -> bool
    ensures { result ≡ is_hearing entry.now }
{
    matches!(entry, Entry::Heard { .. } | Entry::Lost)
}

/// Whether nothing is heard behind an entry.
fn is_last(entry: &Entry) -> bool
    ensures { result ≡ is_last_hearing entry.now }
{
    match entry {
        Entry::Heard { heard, bytes: _ } => matches!(heard.what, What::Over),
        Entry::Lost => true,
        Entry::Sent { .. }
        | Entry::Answered { .. }
        | Entry::Drove { .. }
        | Entry::Dialed { .. }
        | Entry::Ended { .. } => false,
    }
}

/// Whether what was heard names no post above these.
fn what_is_of(what: &What, posts: u8) -> bool
    ensures { IsTrue result ↔ IsOfPosts posts what.now }
{
    match what {
        What::Came { post, token: _ }
        | What::Bytes { post, n: _ }
        | What::Gone { post }
        | What::Datagram { post, n: _ }
        | What::Plant { post, event: _ } => 1 <= *post && *post <= posts,
        What::Tick | What::Over => true,
    }
}

/// Whether an entry names no post above these.
fn is_of(entry: &Entry, posts: u8) -> bool
    ensures { IsTrue result ↔ IsOf posts entry.now }
{
    match entry {
        Entry::Heard { heard, bytes: _ } => what_is_of(&heard.what, posts),
        Entry::Sent { post, .. }
        | Entry::Answered { post, .. }
        | Entry::Drove { post, .. }
        | Entry::Ended { post, .. } => 1 <= *post && *post <= posts,
        Entry::Lost | Entry::Dialed { .. } => true,
    }
}

/// The hearings up to an entry behind so many.
fn hearings_with(hearings: u64, entry: &Entry) -> u64
    requires { hearings < 2 ^ 63 }
    ensures { result ≡ hearings_with hearings entry.now }
{
    if is_hearing(entry) {
        hearings + 1
    } else {
        hearings
    }
}

/// Reads a line of format 2 behind so many hearings.
fn numbered_entry(
    alloc: Global,
    hearings: u64,
    line: &[u8],
    number: u64,
) -> Result<Entry, LineFault>
    requires { hearings < 2 ^ 63 }
    ensures read { IfOk result (λ e. IsLineIn Format.Numbered e × (line.now ≡ line_behind Format.Numbered hearings e)) }
    ensures number { IfErr result (λ fault. (fault ≡ LineFault.Memory) ⊎ (fault ≡ LineFault.BadLine number)) }
    ensures bad { result ≡ Err (LineFault.BadLine number) → (e : Entry) → IsLineIn Format.Numbered e → line.now ≢ line_behind Format.Numbered hearings e }
{
    let (hearing, entry) = read_numbered(alloc, line, number)?;
    if hearing == hearings_with(hearings, &entry) {
        Ok(entry)
    } else {
        Err(LineFault::BadLine(number))
    }
}

/// Reads a line in a format behind so many hearings.
fn entry_in(
    alloc: Global,
    format: Format,
    hearings: u64,
    line: &[u8],
    number: u64,
) -> Result<Entry, LineFault>
    requires { hearings < 2 ^ 63 }
    ensures read { IfOk result (λ e. IsLineIn format e × (line.now ≡ line_behind format hearings e)) }
    ensures number { IfErr result (λ fault. (fault ≡ LineFault.Memory) ⊎ (fault ≡ LineFault.BadLine number)) }
    ensures bad { result ≡ Err (LineFault.BadLine number) → (e : Entry) → IsLineIn format e → line.now ≢ line_behind format hearings e }
{
    match format {
        Format::Plain => read_line(alloc, line, number),
        Format::Numbered => numbered_entry(alloc, hearings, line, number),
    }
}

/// Whether an entry may come where the lines before stand so.
fn may_come(standing: &Standing, entry: &Entry) -> bool
    ensures { IsTrue result ↔ (IsOf standing.now.posts entry.now × (is_hearing entry.now ≡ true → standing.now.is_over ≡ false)) }
{
    is_of(entry, standing.posts) && !(standing.is_over && is_hearing(entry))
}

/// Reads the line of the next entry. `number` is the line's own, for the fault.
pub(crate) fn next_entry(
    alloc: Global,
    standing: &Standing,
    line: &[u8],
    number: u64,
) -> Result<Entry, LineFault>
    requires { standing.now.hearings < 2 ^ 63 }
    ensures read { IfOk result (λ e. IsNext standing.now e × (line.now ≡ line_behind standing.now.format standing.now.hearings e)) }
    ensures number { IfErr result (λ fault. (fault ≡ LineFault.Memory) ⊎ (fault ≡ LineFault.BadLine number)) }
    ensures bad { result ≡ Err (LineFault.BadLine number) → (e : Entry) → IsNext standing.now e → line.now ≢ line_behind standing.now.format standing.now.hearings e }
{
    let entry = entry_in(alloc, standing.format, standing.hearings, line, number)?;
    if may_come(standing, &entry) {
        Ok(entry)
    } else {
        Err(LineFault::BadLine(number))
    }
}

/// How the lines stand behind one entry more.
pub(crate) fn behind(standing: &Standing, entry: &Entry) -> Standing
    requires { standing.now.hearings < 2 ^ 63 }
    ensures { (format : Format) (posts : ℕ) (past : List Entry) → Stands format posts past standing.now → Stands format posts (entry.now ∷ past) result }
{
    Standing {
        format: standing.format,
        posts: standing.posts,
        hearings: hearings_with(standing.hearings, entry),
        is_over: is_last(entry) || standing.is_over,
    }
}
