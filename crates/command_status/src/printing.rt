//! Lines that are printed.

ghost use Rattle.command_status.specs.Told.{sink_told, PrintsAs};

use crate::status::Status;
use charge_world::Sink;

/// Prints a line, and says this status, or `SinkFault`, where that fails.
pub fn print_line<K: Sink>(out: &mut K, line: &[u8], status: Status) -> Status
    ensures { PrintsAs status line.now result (sink_told (K.taken out.old) (K.faults out.old)) (sink_told (K.taken out.new) (K.faults out.new)) }
{
    match out.write(line) {
        Ok(()) => status,
        Err(_) => Status::SinkFault,
    }
}
