//! The trace of format 1 in a file.

ghost use Rattle.std.specs.Prelude.{◌≡◌, ◌≢◌, ℕ, List, ◌++◌, IfOk, IfErr, MatchOption, MatchResult};
ghost use Rattle.std.specs.List.{AllByRecursion};
ghost use Rattle.trace_text.specs.Pasts.{first_line_1};
ghost use Rattle.trace_text.specs.TraceText.{IsWritable};
ghost use Rattle.plan_files.specs.FileTexts.{IsBeginning, CountsFault};
ghost use Rattle.command_status.specs.Told.{TellsAlways, OfText};
ghost use Rattle.migrate_command.specs.Formats.{IsPlainTrace, IsRefusedAt};
ghost use Rattle.migrate_command.specs.Leaving.{HasFault};

use charge_world::{Entry, Source};
use plan_files::{TextFault, text_in};
use std::alloc::Global;
use trace_files::{LONGEST_TRACE, trace_of};
use trace_reading::TraceFault;

/// Why there are no entries.
#[derive(Drop)]
pub(crate) enum FileFault {
    /// The file could not be read.
    Unread,
    /// The trace is refused at this line, counted from 1.
    Line(u64),
    /// Memory ran out.
    Memory,
}

/// Posts are numbered from 1 to 8.
const POSTS: u8 = 8;

/// What is behind the first line of format 1, where a text begins with it.
fn behind_first_line(text: &[u8]) -> Option<&[u8]>
    ensures { MatchOption result ((more : List ℕ) → text.now ≢ first_line_1 ++ more) (λ lines. text.now ≡ first_line_1 ++ lines.now) }
{
    let lines = text.strip_prefix(b"v2g-trace 1\n")?;
    Some(lines)
}

/// Refuses a text that begins with these bytes, and has another first line than that of format 1: there, or where it passes 256 MiB.
fn refuse_other(alloc: Global, bytes: &[u8]) -> Result<Vec<Entry>, TraceFault>
    requires { (more : List ℕ) → bytes.now ≢ first_line_1 ++ more }
    ensures read { IfOk result (λ entries. (text : List ℕ) → IsBeginning text bytes.now 268435457 → IsPlainTrace text entries.items) }
    ensures writable { IfOk result (λ entries. AllByRecursion IsWritable entries.items) }
    ensures fault { IfErr result (λ fault. (text : List ℕ) (number : ℕ) → IsBeginning text bytes.now 268435457 → fault ≡ TraceFault.BadLine number → IsRefusedAt text number) }
{
    if bytes.len() > LONGEST_TRACE {
        return trace_of(alloc, bytes, POSTS);
    }
    Err(TraceFault::BadLine(1))
}

/// Reads the trace of format 1 of a text that begins with these bytes, and is these where they are no more than a trace may have. The fault
/// names its first line that is outside format 1, or the one in which it passes 256 MiB.
fn plain_trace_of(alloc: Global, bytes: &[u8]) -> Result<Vec<Entry>, TraceFault>
    ensures read { IfOk result (λ entries. (text : List ℕ) → IsBeginning text bytes.now 268435457 → IsPlainTrace text entries.items) }
    ensures writable { IfOk result (λ entries. AllByRecursion IsWritable entries.items) }
    ensures fault { IfErr result (λ fault. (text : List ℕ) (number : ℕ) → IsBeginning text bytes.now 268435457 → fault ≡ TraceFault.BadLine number → IsRefusedAt text number) }
{
    match behind_first_line(bytes) {
        Some(_) => trace_of(alloc, bytes, POSTS),
        None => refuse_other(alloc, bytes),
    }
}

/// The entries of the trace of format 1 in the file of that name, the oldest first.
pub(crate) fn entries_in<F: Source>(
    alloc: Global,
    name: &str,
    files: &mut F,
) -> Result<Vec<Entry>, FileFault>
    ensures read { IfOk result (λ entries. OfText (TellsAlways F.left) (F.holds files.old name.now) (λ text. IsPlainTrace text entries.items)) }
    ensures writable { IfOk result (λ entries. AllByRecursion IsWritable entries.items) }
    ensures fault { IfErr result (HasFault (TellsAlways F.left) (F.holds files.old name.now)) }
    ensures faults { MatchResult result (λ _. F.faults files.new ≡ F.faults files.old) (CountsFault FileFault.Unread (F.faults files.old) (F.faults files.new)) }
    ensures holds { (other : List ℕ) → F.holds files.new other ≡ F.holds files.old other }
{
    match text_in(alloc, files, name, LONGEST_TRACE) {
        Ok(bytes) => match plain_trace_of(alloc, &bytes) {
            Ok(entries) => Ok(entries),
            Err(TraceFault::BadLine(number)) => Err(FileFault::Line(number)),
            Err(TraceFault::Memory) => Err(FileFault::Memory),
        },
        Err(TextFault::Unread) => Err(FileFault::Unread),
        Err(TextFault::Memory) => Err(FileFault::Memory),
    }
}
