//! The plan in one file, and the trace in another.

ghost use Rattle.std.specs.Prelude.{◌≡◌, ℕ, List, length, IfOk, IfErr, MatchResult};
ghost use Rattle.std.specs.List.{AllByRecursion};
ghost use Rattle.session_words.specs.Plans.{IsSitePlan};
ghost use Rattle.trace_reading.specs.Readings.{IsOf};
ghost use Rattle.replay_wire.specs.Replays.{AllCanBeHeard};
ghost use Rattle.plan_files.specs.FileTexts.{IsBeginning, CountsFault};
ghost use Rattle.trace_files.specs.Recordings.{IsRecorded, IsRefusedAt};
ghost use Rattle.command_status.specs.Told.{TellsAlways, OfText};
ghost use Rattle.planned_traces.specs.Files.{files_told, AreFiles, HasFault, HasTraceFault, IsBehind};

use charge_world::{Entry, Source};
use plan_files::{PlanFileFault, TextFault, site_plan_in, text_in};
use site_plan::{PlanFault, SitePlan};
use std::alloc::Global;
use trace_files::{LONGEST_TRACE, trace_of};
use trace_reading::TraceFault;

/// A plan, and the entries of a trace at its posts, the oldest first.
#[derive(Drop)]
pub struct Recording {
    pub plan: SitePlan,
    pub entries: Vec<Entry>,
}

/// Why they weren't read.
#[derive(Drop)]
pub enum FilesFault {
    /// A file could not be read.
    Unread,
    /// The plan is refused, or memory ran out.
    Plan(PlanFault),
    /// The trace is refused at this line, counted from 1.
    Line(u64),
    /// Memory ran out.
    Memory,
}

/// The entries of the trace that begins with these bytes, and is these where they are no more than a trace may have; its posts are from 1 to `posts`.
fn entries_of(alloc: Global, bytes: &[u8], posts: u8) -> Result<Vec<Entry>, TraceFault>
    ensures read { IfOk result (λ entries. (text : List ℕ) → IsBeginning text bytes.now 268435457 → IsRecorded posts text entries.items) }
    ensures heard { IfOk result (λ entries. AllCanBeHeard posts entries.items) }
    ensures of { IfOk result (λ entries. AllByRecursion (IsOf posts) entries.items) }
    ensures fault { IfErr result (λ fault. (text : List ℕ) (number : ℕ) → IsBeginning text bytes.now 268435457 → fault ≡ TraceFault.BadLine number → IsRefusedAt posts text number) }
{
    trace_of(alloc, bytes, posts)
}

/// The entries of the trace in the file of that name, whose posts are from 1 to `posts`.
fn entries_in<F: Source>(
    alloc: Global,
    posts: u8,
    name: &str,
    files: &mut F,
) -> Result<Vec<Entry>, FilesFault>
    ensures read { IfOk result (λ entries. OfText (TellsAlways F.left) (F.holds files.old name.now) (λ text. IsRecorded posts text entries.items)) }
    ensures heard { IfOk result (λ entries. AllCanBeHeard posts entries.items) }
    ensures of { IfOk result (λ entries. AllByRecursion (IsOf posts) entries.items) }
    ensures fault { IfErr result (HasTraceFault (TellsAlways F.left) (F.holds files.old name.now) posts) }
    ensures faults { MatchResult result (λ _. F.faults files.new ≡ F.faults files.old) (CountsFault FilesFault.Unread (F.faults files.old) (F.faults files.new)) }
    ensures holds { (other : List ℕ) → F.holds files.new other ≡ F.holds files.old other }
{
    match text_in(alloc, files, name, LONGEST_TRACE) {
        Ok(bytes) => match entries_of(alloc, &bytes, posts) {
            Ok(entries) => Ok(entries),
            Err(TraceFault::BadLine(number)) => Err(FilesFault::Line(number)),
            Err(TraceFault::Memory) => Err(FilesFault::Memory),
        },
        Err(TextFault::Unread) => Err(FilesFault::Unread),
        Err(TextFault::Memory) => Err(FilesFault::Memory),
    }
}

/// The fault where the plan is refused: the trace is still read, and what can't be read is told first.
fn refused_behind<F: Source>(
    alloc: Global,
    fault: PlanFault,
    name: &str,
    files: &mut F,
) -> FilesFault
    ensures fault { IsBehind fault result }
    ensures faults { CountsFault FilesFault.Unread (F.faults files.old) (F.faults files.new) result }
    ensures holds { (other : List ℕ) → F.holds files.new other ≡ F.holds files.old other }
{
    match text_in(alloc, files, name, LONGEST_TRACE) {
        Ok(_) => FilesFault::Plan(fault),
        Err(TextFault::Unread) => FilesFault::Unread,
        Err(TextFault::Memory) => FilesFault::Memory,
    }
}

/// Reads both files, and then judges the plan, and the trace at its posts.
///
/// `Unread` exactly where a file can't be read, before anything is judged; `Plan` where the first is no plan, and then `Line` where the second is no
/// trace of either format at the plan's posts, or is longer than 256 MiB. Want of memory comes freely, as `Memory` or the `Plan` that says so.
pub fn recording_in<F: Source>(
    alloc: Global,
    plan_name: &str,
    trace_name: &str,
    files: &mut F,
) -> Result<Recording, FilesFault>
    ensures read { IfOk result (λ recording. AreFiles (TellsAlways F.left)
        (files_told (F.holds files.old plan_name.now) (F.holds files.old trace_name.now) (F.faults files.old) (F.faults files.new))
        recording.plan recording.entries.items) }
    ensures within { IfOk result (λ recording. IsSitePlan recording.plan) }
    ensures heard { IfOk result (λ recording. AllCanBeHeard (length recording.plan.post.items) recording.entries.items) }
    ensures of { IfOk result (λ recording. AllByRecursion (IsOf (length recording.plan.post.items)) recording.entries.items) }
    ensures fault { IfErr result (HasFault (TellsAlways F.left)
        (files_told (F.holds files.old plan_name.now) (F.holds files.old trace_name.now) (F.faults files.old) (F.faults files.new))) }
    ensures faults { MatchResult result (λ _. F.faults files.new ≡ F.faults files.old) (CountsFault FilesFault.Unread (F.faults files.old) (F.faults files.new)) }
    ensures holds { (other : List ℕ) → F.holds files.new other ≡ F.holds files.old other }
{
    match site_plan_in(alloc, files, plan_name) {
        Ok(plan) => match entries_in(alloc, plan.post.len() as u8, trace_name, files) {
            Ok(entries) => Ok(Recording { plan, entries }),
            Err(fault) => Err(fault),
        },
        Err(PlanFileFault::Unread) => Err(FilesFault::Unread),
        Err(PlanFileFault::Refused(fault)) => Err(refused_behind(alloc, fault, trace_name, files)),
    }
}
