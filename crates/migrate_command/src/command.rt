//! The command.

ghost use Rattle.std.specs.Prelude.{◌≡◌, ◌≢◌, ◌<◌, ◌≤◌, ◌^◌, ◌⊎◌, ℕ, List, length, IfOk, [], ◌∷◌};
ghost use Rattle.std.specs.List.{AllByRecursion};
ghost use Rattle.trace_text.specs.TraceText.{IsWritable};
ghost use Rattle.command_status.specs.Told.{TellsAlways};
ghost use Rattle.command_status.specs.Completeness.{Completes};
ghost use Rattle.migrate_command.specs.Lines.{sink_change};
ghost use Rattle.migrate_command.specs.Leaving.{Wrote, MigrateLeaves, IsUnbegun};

use crate::lines::{print_lines, refuse};
use crate::reading::entries_in;
use crate::writing::{LONGEST_LINE, write_entries};
use charge_world::{Entry, NoMemory, Sink, Source};
use command_status::Status;
use std::alloc::Global;

/// Takes the room for a line.
fn room_of(alloc: Global) -> Result<Vec<u8>, NoMemory>
    ensures { IfOk result (λ room. 131221 ≤ length room.items) }
{
    Ok(vec![in alloc; 0; LONGEST_LINE]?)
}

/// Writes the text in format 2 of these entries by way of a room, and prints how many lines it has.
fn write_and_print<K: Sink, J: Sink>(
    entries: &[Entry],
    room: &mut [u8],
    out: &mut K,
    trace: &mut J,
) -> Status
    requires room { 131221 ≤ length room.old }
    requires writable { AllByRecursion IsWritable entries.now }
    requires few { length entries.now < 2 ^ 63 }
    ensures wrote { Wrote entries.now result (sink_change (J.taken trace.old) (J.taken trace.new) (J.faults trace.old) (J.faults trace.new))
        (sink_change (K.taken out.old) (K.taken out.new) (K.faults out.old) (K.faults out.new)) }
    ensures no_memory { result ≢ Status.NoMemory }
    ensures sink_fault { result ≡ Status.SinkFault → (K.faults out.old < K.faults out.new) ⊎ (J.faults trace.old < J.faults trace.new) }
    ensures trace_fault { J.faults trace.old < J.faults trace.new → result ≡ Status.SinkFault }
{
    match write_entries(entries, room, trace) {
        Ok(()) => print_lines(out, entries.len() as u64 + 1),
        Err(_) => Status::SinkFault,
    }
}

/// The same by way of a room that it takes. Want of memory leaves all as it was.
fn write_migrated<K: Sink, J: Sink>(
    alloc: Global,
    entries: Vec<Entry>,
    out: &mut K,
    trace: &mut J,
) -> Status
    requires { AllByRecursion IsWritable entries.items }
    ensures wrote { Wrote entries.items result (sink_change (J.taken trace.old) (J.taken trace.new) (J.faults trace.old) (J.faults trace.new))
        (sink_change (K.taken out.old) (K.taken out.new) (K.faults out.old) (K.faults out.new)) }
    ensures no_memory { result ≡ Status.NoMemory → (trace.new ≡ trace.old) × (out.new ≡ out.old) }
    ensures sink_fault { result ≡ Status.SinkFault → (K.faults out.old < K.faults out.new) ⊎ (J.faults trace.old < J.faults trace.new) }
    ensures trace_fault { J.faults trace.old < J.faults trace.new → result ≡ Status.SinkFault }
{
    match room_of(alloc) {
        Ok(mut room) => { write_and_print(entries.as_slice(), room.as_mut_slice(), out, trace) }
        Err(_) => Status::NoMemory,
    }
}

/// Writes the trace of format 1 in a file as one of format 2, where the number of its hearing stands before each line, and prints how many
/// lines that has: `lines N`.
///
/// `Done` where all was written. `SinkFault` takes its place where the line couldn't be written, and stands where a line of the trace couldn't.
/// Before that, `SourceFault` where the file can't be read, and then `Input` where it is no trace of format 1 at posts from 1 to 8, or is longer
/// than 256 MiB: `input N` is its first line that is outside format 1, so the first of a trace of format 2, or the one in which the limit is
/// passed. `NoMemory` comes freely, before anything is written. Each fault but want of memory and those of sinks has its line, whose failure
/// changes nothing.
pub fn migrate<F: Source, K: Sink, J: Sink>(
    alloc: Global,
    trace_name: &str,
    files: &mut F,
    out: &mut K,
    trace: &mut J,
) -> Status
    ensures leaves { MigrateLeaves (TellsAlways F.left) result (F.holds files.old trace_name.now) (F.faults files.old) (F.faults files.new)
        (sink_change (J.taken trace.old) (J.taken trace.new) (J.faults trace.old) (J.faults trace.new))
        (sink_change (K.taken out.old) (K.taken out.new) (K.faults out.old) (K.faults out.new)) }
    ensures unbegun { IsUnbegun result → trace.new ≡ trace.old }
    ensures no_memory { result ≡ Status.NoMemory → out.new ≡ out.old }
    ensures holds { (other : List ℕ) → F.holds files.new other ≡ F.holds files.old other }

    // A sink's fault is told only where a call of it failed, and that of the trace exactly there.
    ensures sink_fault { result ≡ Status.SinkFault → (K.faults out.old < K.faults out.new) ⊎ (J.faults trace.old < J.faults trace.new) }
    ensures trace_fault { J.faults trace.old < J.faults trace.new → result ≡ Status.SinkFault }

    // Where no call failed, the file decides, but for want of memory.
    ensures complete { Completes ((F.faults files.old, F.faults files.new) ∷ (K.faults out.old, K.faults out.new) ∷ (J.faults trace.old, J.faults trace.new) ∷ []) (Status.Input ∷ []) result }
{
    match entries_in(alloc, trace_name, files) {
        Ok(entries) => write_migrated(alloc, entries, out, trace),
        Err(fault) => refuse(out, fault),
    }
}
