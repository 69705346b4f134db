//! The lines that are printed.

ghost use Rattle.std.specs.Prelude.{◌≡◌, ◌⊎◌};
ghost use Rattle.migrate_command.specs.Lines.{sink_change, lines_line, IsWhole, IsCutOff};
ghost use Rattle.migrate_command.specs.Leaving.{Refuses};

use crate::reading::FileFault;
use charge_world::Sink;
use command_status::{Line, Status, add, add_number, line_of_input, tell_fault};

/// The line of a trace that has so many lines.
#[tactic(auto, unfolding(crate::specs::Lines::lines_line))]
fn line_of(lines: u64) -> Line
    ensures { result.items ≡ lines_line lines }
{
    let mut line = Line::new();
    add(&mut line, b"lines ");
    add_number(&mut line, lines);
    add(&mut line, b"\n");
    line
}

/// Prints how many lines the trace has, and says the status.
pub(crate) fn print_lines<K: Sink>(out: &mut K, lines: u64) -> Status
    ensures { ((result ≡ Status.Done) × IsWhole (sink_change (K.taken out.old) (K.taken out.new) (K.faults out.old) (K.faults out.new)) (lines_line lines))
        ⊎ ((result ≡ Status.SinkFault) × IsCutOff (sink_change (K.taken out.old) (K.taken out.new) (K.faults out.old) (K.faults out.new)) (lines_line lines)) }
{
    match out.write(line_of(lines).as_slice()) {
        Ok(()) => Status::Done,
        Err(_) => Status::SinkFault,
    }
}

/// Tells why there is nothing to write, and says the status. Want of memory has no line.
pub(crate) fn refuse<K: Sink>(out: &mut K, fault: FileFault) -> Status
    ensures refuses { Refuses fault result (sink_change (K.taken out.old) (K.taken out.new) (K.faults out.old) (K.faults out.new)) }
    ensures no_memory { result ≡ Status.NoMemory → out.new ≡ out.old }
{
    match fault {
        FileFault::Unread => {
            tell_fault(out, b"source\n");
            Status::SourceFault
        }
        FileFault::Line(number) => {
            tell_fault(out, line_of_input(number).as_slice());
            Status::Input
        }
        FileFault::Memory => Status::NoMemory,
    }
}
