//! What a command prints that reads a file: its lines, or the line of the file's fault.

ghost use Rattle.std.specs.Prelude.{◌≡◌, option_map};
ghost use Rattle.command_status.specs.Told.{sink_told, Prints};
ghost use Rattle.charging_files.specs.FileLines.{key_of as told_key, Refuses};

use charge_world::Sink;
use command_status::{Status, tell_fault, tell_plan};
use plan_files::PlanFileFault;
use plan_keys::PlanFault;

/// The key of a fault, or `toml`; none for want of memory.
fn key_of(fault: &PlanFault) -> Option<&str>
    ensures { option_map (λ key. key.now) result ≡ told_key fault.now }
{
    match fault {
        PlanFault::NotToml => Some("toml"),
        PlanFault::Missing(key) | PlanFault::BadValue(key) | PlanFault::OverLimit(key) => {
            Some(key.as_str())
        }
        PlanFault::Memory => None,
    }
}

/// Writes lines, all at once: `Done`, or `SinkFault` where that fails.
pub fn print_lines<K: Sink>(out: &mut K, lines: &str) -> Status
    ensures { Prints lines.now result (sink_told (K.taken out.old) (K.faults out.old)) (sink_told (K.taken out.new) (K.faults out.new)) }
{
    match out.write(lines.as_bytes()) {
        Ok(()) => Status::Done,
        Err(_) => Status::SinkFault,
    }
}

/// Tells by a line that a file couldn't be read, or by which key it is refused, and says the status. Want of memory has no line, and a line
/// that couldn't be written changes nothing.
pub fn refuse_file<K: Sink>(out: &mut K, fault: &PlanFileFault) -> Status
    ensures { Refuses fault.now result (sink_told (K.taken out.old) (K.faults out.old)) (sink_told (K.taken out.new) (K.faults out.new)) }
{
    match fault {
        PlanFileFault::Unread => {
            tell_fault(out, b"source\n");
            Status::SourceFault
        }
        PlanFileFault::Refused(fault) => match key_of(fault) {
            Some(key) => {
                tell_plan(out, key);
                Status::Plan
            }
            None => Status::NoMemory,
        },
    }
}
