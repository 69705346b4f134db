//! Entries that are written as a trace of format 2.

ghost use Rattle.std.specs.Prelude.{◌≡◌, ◌≤◌, ◌<◌, ◌^◌, length, OnOk, OnErr};
ghost use Rattle.std.specs.List.{AllByRecursion};
ghost use Rattle.charge_world.specs.Outside.{IsFault, Appends, AppendsSome};
ghost use Rattle.trace_text.specs.TraceText.{numbered_line_of, IsWritable};
ghost use Rattle.migrate_command.specs.Formats.{numbered_text};

use charge_world::{Entry, Failed, Sink};
use trace_reading::is_hearing;
use trace_text::write_numbered;

/// The bytes of the longest line, 131,200, with a number of 20 digits and a space before it.
pub(crate) const LONGEST_LINE: usize = 131_221;

/// Writes the line of an entry of the hearing with this number, by way of a room.
fn write_line<J: Sink>(
    hearing: u64,
    entry: &Entry,
    room: &mut [u8],
    trace: &mut J,
) -> Result<(), Failed>
    requires room { 131221 ≤ length room.old }
    requires writable { IsWritable entry.now }
    ensures ok { OnOk result (Appends (J.taken trace.old) (J.taken trace.new) (numbered_line_of hearing entry.now)) }
    ensures failed { OnErr result (AppendsSome (J.taken trace.old) (J.taken trace.new) (numbered_line_of hearing entry.now)) }
    ensures faults { IsFault (J.faults trace.old) (J.faults trace.new) result }
{
    let n = write_numbered(hearing, entry, room).unwrap() as usize;
    trace.write(&room[..n])
}

/// Writes the text in format 2 of these entries, the oldest first, by way of a room: its first line, and a line for each, by one call each.
pub(crate) fn write_entries<J: Sink>(
    entries: &[Entry],
    room: &mut [u8],
    trace: &mut J,
) -> Result<(), Failed>
    requires room { 131221 ≤ length room.old }
    requires writable { AllByRecursion IsWritable entries.now }
    requires few { length entries.now < 2 ^ 63 }
    ensures ok { OnOk result (Appends (J.taken trace.old) (J.taken trace.new) (numbered_text entries.now)) }
    ensures failed { OnErr result (AppendsSome (J.taken trace.old) (J.taken trace.new) (numbered_text entries.now)) }
    ensures faults { IsFault (J.faults trace.old) (J.faults trace.new) result }
{
    trace.write(b"v2g-trace 2\n")?;
    let mut hearing = 0;
    for entry in entries {
        if is_hearing(entry) {
            hearing += 1;
        }
        write_line(hearing, entry, room, trace)?;
    }
    Ok(())
}
