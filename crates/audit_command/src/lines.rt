//! The lines that an audit prints.

ghost use Rattle.std.specs.Prelude.{◌≡◌, MatchOption, length};
ghost use Rattle.command_status.specs.Told.{sink_told, PrintsAs};
ghost use Rattle.audit_command.specs.Lines.{ok_line, no_line, Refuses};

use charge_world::Sink;
use charging_files::refuse_file;
use command_status::{Line, Status, add, add_number, line_of_input, print_line, tell_fault};
use plan_files::PlanFileFault;
use planned_traces::FilesFault;
use trace_audit::Fault;

/// The line of a trace in which no check fails.
#[tactic(auto, unfolding(crate::specs::Lines::ok_line))]
fn line_of_ok(lines: u64) -> Line
    ensures { result.items ≡ ok_line lines }
{
    let mut line = Line::new();
    add(&mut line, b"audit ok lines ");
    add_number(&mut line, lines);
    add(&mut line, b"\n");
    line
}

/// The line of a check that fails.
#[tactic(auto, unfolding(crate::specs::Lines::no_line))]
fn line_of_fault(fault: Fault) -> Line
    ensures { result.items ≡ no_line fault.line fault.check }
{
    let mut line = Line::new();
    add(&mut line, b"audit no line ");
    add_number(&mut line, fault.line);
    add(&mut line, b" check ");
    add_number(&mut line, u64::from(fault.check));
    add(&mut line, b"\n");
    line
}

/// Prints what came of an audit of a trace of so many lines, and says the status.
pub(crate) fn conclude<K: Sink>(out: &mut K, fault: Option<Fault>, lines: u64) -> Status
    ensures { MatchOption fault
        (PrintsAs Status.Done (ok_line lines) result (sink_told (K.taken out.old) (K.faults out.old)) (sink_told (K.taken out.new) (K.faults out.new)))
        (λ f. PrintsAs Status.AuditNo (no_line f.line f.check) result (sink_told (K.taken out.old) (K.faults out.old)) (sink_told (K.taken out.new) (K.faults out.new))) }
{
    match fault {
        None => print_line(out, line_of_ok(lines).as_slice(), Status::Done),
        Some(fault) => print_line(out, line_of_fault(fault).as_slice(), Status::AuditNo),
    }
}

/// Tells why there is nothing to judge, and says the status. Want of memory has no line.
pub(crate) fn refuse<K: Sink>(out: &mut K, fault: FilesFault) -> Status
    ensures { Refuses fault result (sink_told (K.taken out.old) (K.faults out.old)) (sink_told (K.taken out.new) (K.faults out.new)) }
{
    match fault {
        FilesFault::Unread => refuse_file(out, &PlanFileFault::Unread),
        FilesFault::Plan(fault) => refuse_file(out, &PlanFileFault::Refused(fault)),
        FilesFault::Line(number) => {
            tell_fault(out, line_of_input(number).as_slice());
            Status::Input
        }
        FilesFault::Memory => Status::NoMemory,
    }
}
